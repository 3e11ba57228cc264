//! A rule as it is taken apart.

ghost use Rattle.std.specs.Prelude.{◌≡◌, IfOk};
ghost use Rattle.proof_checks.specs.declared.step.Step.TheVariants.{One, Two, Three};

use nj_formula::{Formula, Name, ObjTerm, Shared};
use proof_terms::{Cite, Term};
use std::alloc::{AllocError, Global};
use theory_ctx::Local;

/// A part of a rule: a term, what it is to show, and the assumption that it alone may cite.
pub(crate) struct Part {
    pub(crate) term: Shared<Term>,
    pub(crate) goal: Formula,
    pub(crate) own: Option<Local>,
}

/// By hand, as for the other types here, so that a part is let go by one call wherever it ends.
impl Drop for Part {
    fn drop(self) {
        let Part { term, goal, own } = self;
        drop(term);
        drop(goal);
        drop(own);
    }
}

/// A rule of one premise, with what it has besides.
pub(crate) enum Unary {
    ConjE1,
    ConjE2,
    /// The other part of the disjunction.
    DisjI1(Shared<Formula>),
    DisjI2(Shared<Formula>),
    /// What is discharged.
    ImpI(Shared<Formula>),
    NotI(Shared<Formula>),
    FalseE,
    /// The name that is to be fresh.
    AllI(Name),
    /// The term that the body is taken at.
    AllE(Shared<ObjTerm>),
    ExI(Shared<ObjTerm>),
}

impl Drop for Unary {
    fn drop(self) {
        match self {
            Unary::ConjE1 | Unary::ConjE2 | Unary::FalseE => (),
            Unary::DisjI1(formula) | Unary::DisjI2(formula) => drop(formula),
            Unary::ImpI(formula) | Unary::NotI(formula) => drop(formula),
            Unary::AllI(_name) => (),
            Unary::AllE(s) | Unary::ExI(s) => drop(s),
        }
    }
}

/// A rule of two premises, with what it has besides.
#[derive(Drop)]
pub(crate) enum Binary {
    ConjI,
    ImpE,
    NotE,
    /// The name that is to be fresh.
    ExE(Name),
}

/// What a term comes to: a cited name, or a rule's parts, from the left.
pub(crate) enum Step {
    Cited(Cite),
    One(Unary, Part),
    Two(Binary, Part, Part),
    /// The rule disjE.
    Three(Part, Part, Part),
}

impl Drop for Step {
    fn drop(self) {
        match self {
            Step::Cited(_cite) => (),
            Step::One(rule, p) => {
                drop(rule);
                drop(p);
            }
            Step::Two(_rule, p, q) => {
                drop(p);
                drop(q);
            }
            Step::Three(p, q, r) => {
                drop(p);
                drop(q);
                drop(r);
            }
        }
    }
}

/// A rule of one premise and its part.
pub(crate) fn one(alloc: Global, rule: Unary, p: Part) -> Result<Shared<Step>, AllocError>
    ensures { IfOk result (λ step. step ≡ One rule p) }
{
    Shared::new(alloc, Step::One(rule, p))
}

/// A rule of two premises and its parts.
pub(crate) fn two(alloc: Global, rule: Binary, p: Part, q: Part) -> Result<Shared<Step>, AllocError>
    ensures { IfOk result (λ step. step ≡ Two rule p q) }
{
    Shared::new(alloc, Step::Two(rule, p, q))
}

/// The parts of disjE.
pub(crate) fn three(alloc: Global, p: Part, q: Part, r: Part) -> Result<Shared<Step>, AllocError>
    ensures { IfOk result (λ step. step ≡ Three p q r) }
{
    Shared::new(alloc, Step::Three(p, q, r))
}
