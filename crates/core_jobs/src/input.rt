//! What jobs take up.
ghost use Rattle.std.specs.Prelude.{◌≡◌, IfOk};

use core_rules::exec_rules_below::Head;
use core_rules::language_below::Imports;
use doc_nodes::Shared;
use std::alloc::AllocError;

/// The state that a job takes up: an evaluation and its fork take up the state before the command,
/// a print the state behind it.
#[derive(Debug, Drop)]
pub enum Input<S> {
    /// The state behind an evaluation.
    State(Shared<S>),
    /// The state at the beginning of a node: what its first command goes by, and what the node has
    /// from its imports.
    Start {
        head: Shared<Head>,
        imports: Shared<Imports<S>>,
    },
}

impl<S> Input<S> {
    /// The same, for another job: it costs no size.
    pub fn copy(&self) -> Result<Input<S>, AllocError>
        ensures { IfOk result (λ input. input ≡ self.now) }
    {
        match self {
            Input::State(state) => Ok(Input::State(state.copy()?)),
            Input::Start { head, imports } => Ok(Input::Start {
                head: head.copy()?,
                imports: imports.copy()?,
            }),
        }
    }
}
