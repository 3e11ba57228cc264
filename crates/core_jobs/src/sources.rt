//! What jobs take up.
ghost use Rattle.std.specs.Prelude.{◌≡◌, Some, IfOk};
ghost use Rattle.std.specs.Option.{IsSome};
ghost use Rattle.core_rules.specs.exec_rules_below.declared.home.Input.TheVariants as taken;
ghost use Rattle.core_jobs.specs.Inputs.{known_state, found_input};

use crate::done::Done;
use crate::input::Input;
use core_rules::exec_rules_below::{Head, Home, Input as Taken};
use core_rules::language_below::Language;
use core_tables::Execs;
use doc_nodes::{Nodes, Shared};
use joined_results::both;
use pide_base::{ExecId, PartKind};
use std::alloc::{AllocError, Global};

/// What the job of an execution takes up that goes by this: what is finished is in the table, and
/// those nodes that a first command imports are among these.
pub fn input_of<L: Language>(
    alloc: Global,
    lang: &L,
    execs: &Execs<Done<L::State>>,
    nodes: &Nodes,
    home: &Home,
) -> Result<Input<L::State>, AllocError>
    requires { IsSome (found_input L.lang nodes.now (known_state execs.now.rows) home.now.input) }
    ensures { IfOk result (λ input. found_input L.lang nodes.now
        (known_state execs.now.rows) home.now.input ≡ Some input) }
{
    let sources = Sources {
        alloc,
        lang,
        execs,
        nodes,
    };
    sources.taken_up(&home.input)
}

/// What is finished, and the nodes of the version: all that jobs take up is found there.
#[derive(Drop)]
pub(crate) struct Sources<'a, L: Language> {
    pub(crate) alloc: Global,
    pub(crate) lang: &'a L,
    pub(crate) execs: &'a Execs<Done<L::State>>,
    pub(crate) nodes: &'a Nodes,
}

impl<'a, L: Language> Sources<'a, L> {
    /// What the job of an execution takes up.
    fn taken_up(&self, input: &Taken) -> Result<Input<L::State>, AllocError>
        requires { IsSome (found_input L.lang self.now.nodes.now
            (known_state self.now.execs.now.rows) input.now) }
        ensures { IfOk result (λ taken. found_input L.lang self.now.nodes.now
            (known_state self.now.execs.now.rows) input.now ≡ Some taken) }
    {
        match input {
            Taken::First(head) => self.begin(head),
            Taken::Next(exec) | Taken::Print(exec) => Ok(Input::State(self.state_of(*exec)?)),
        }
    }

    /// The state behind an evaluation that is finished.
    pub(crate) fn state_of(&self, exec: ExecId) -> Result<Shared<L::State>, AllocError>
        requires { IsSome (known_state self.now.execs.now.rows exec) }
        ensures { IfOk result (λ state. known_state self.now.execs.now.rows exec ≡ Some state) }
    {
        let Some(execution) = self.execs.get(exec) else {
            unreachable!()
        };
        let Some(done) = execution.result_of(PartKind::Eval) else {
            unreachable!()
        };
        match &done.made {
            Some(made) => made.state.copy(),
            None => unreachable!(),
        }
    }

    /// What the first command of a node takes up.
    fn begin(&self, head: &Shared<Head>) -> Result<Input<L::State>, AllocError>
        requires { IsSome (found_input L.lang self.now.nodes.now
            (known_state self.now.execs.now.rows) (taken.First head.now)) }
        ensures { IfOk result (λ input. found_input L.lang self.now.nodes.now
            (known_state self.now.execs.now.rows) (taken.First head.now) ≡ Some input) }
    {
        let imports = self.imports_of(head.get())?;
        let imports = Shared::new(self.alloc, imports).map_err(|_| AllocError);
        let (head, imports) = both(head.copy(), imports)?;
        Ok(Input::Start { head, imports })
    }
}
