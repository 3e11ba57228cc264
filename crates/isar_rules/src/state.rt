//! What stands between two commands.
ghost use Rattle.std.specs.Prelude.{◌≡◌, IfOk};

use doc_nodes::{Aliases, Shared};
use nj_formula::{Formula, Name};
use proof_state::Proof;
use sqlite_items::Items;
use std::alloc::{AllocError, Global};
use theory_ctx::Ctx;

/// What a node has from its imports.
#[derive(Drop)]
pub enum Given {
    /// The facts of all of them.
    Facts(Ctx),
    /// The first import that has none to give.
    Bad(Items<char>),
}

/// A theory: its name, and the facts that it sees, its own and those of its imports.
#[derive(Drop)]
pub struct Theory {
    pub name: Name,
    pub facts: Ctx,
}

impl Theory {
    /// The same theory, in constant time.
    pub fn copy(&self, alloc: Global) -> Result<Theory, AllocError>
        ensures { IfOk result (λ theory. theory ≡ self.now) }
    {
        Ok(Theory {
            name: self.name.copy(alloc)?,
            facts: self.facts.copy()?,
        })
    }
}

/// How far the commands of a node have come.
#[derive(Drop)]
pub enum Place {
    /// Before the first command, which is to begin the theory of the node's name.
    Start {
        node: Name,
        given: Given,
        /// The name of the first bad pair of the node's aliases.
        bad_keyword: Option<Items<char>>,
    },
    /// Behind a first command that began no theory.
    Outside,
    /// In a theory, where no proof is open.
    Theory(Theory),
    /// In the proof of a lemma of this name and formula.
    Proof {
        theory: Theory,
        name: Name,
        goal: Formula,
        proof: Proof,
    },
    /// Behind the end of a theory.
    End(Theory),
}

/// What stands between two commands.
#[derive(Drop)]
pub struct State {
    pub place: Place,
    /// The aliases of the node's commands.
    pub aliases: Shared<Aliases>,
}
