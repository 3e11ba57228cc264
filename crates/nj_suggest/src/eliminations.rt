//! Rules that eliminate a fact and have no part to be looked for, and terms that are joined.
ghost use Rattle.std.specs.Prelude.{◌≡◌, IfOk, Some, None};
ghost use Rattle.std.specs.Option.{option_or};
ghost use Rattle.nj_formula.specs.declared.formula.Formula.{out-Formula};
ghost use Rattle.nj_kernel.specs.declared.rule.Rule.TheVariants as R;
ghost use Rattle.proof_terms.specs.declared.term.Term.TheVariants as T;
ghost use Rattle.suggest_rules.specs.Search.{if_so, is_false, says_same, citing, by_rule};

use crate::citing::{fact_of, says_same};
use crate::naming::is_usable;
use joined_results::{both, each_of_three};
use nj_formula::{Formula, Name, Shared};
use nj_kernel::Rule;
use proof_terms::Term;
use sqlite_items::Items;
use std::alloc::{AllocError, Global};
use theory_ctx::Local;

/// Whether the formula is `False`.
pub(crate) fn is_false(formula: &Formula) -> bool
    ensures { result ≡ is_false (out-Formula formula.now) }
{
    matches!(formula, Formula::False)
}

/// The goal is a part of the fact `a & b`.
pub(crate) fn parted(
    alloc: Global,
    aliases: &[Items<char>],
    goal: &Formula,
    local: &Local,
    a: &Shared<Formula>,
    b: &Shared<Formula>,
) -> Result<Option<Term>, AllocError>
    ensures { IfOk result (λ term. term ≡ option_or
        (by_rule aliases.now R.ConjE1
        (if_so (says_same a.now goal.now) (Some (T.ConjE1 b.now (citing local.now)))))
        (by_rule aliases.now R.ConjE2
        (if_so (says_same b.now goal.now) (Some (T.ConjE2 a.now (citing local.now)))))) }
{
    if says_same(a.get(), goal) && is_usable(aliases, Rule::ConjE1) {
        let (b, fact) = both(b.copy(), fact_of(alloc, local))?;
        return Ok(Some(Term::ConjE1(b, fact)));
    }
    if says_same(b.get(), goal) && is_usable(aliases, Rule::ConjE2) {
        let (a, fact) = both(a.copy(), fact_of(alloc, local))?;
        return Ok(Some(Term::ConjE2(a, fact)));
    }
    Ok(None)
}

/// The goal follows by the fact `False`.
pub(crate) fn absurd(
    alloc: Global,
    aliases: &[Items<char>],
    local: &Local,
) -> Result<Option<Term>, AllocError>
    ensures { IfOk result (λ term. term
        ≡ by_rule aliases.now R.FalseE (Some (T.FalseE (citing local.now)))) }
{
    if !is_usable(aliases, Rule::FalseE) {
        return Ok(None);
    }
    let fact = fact_of(alloc, local)?;
    Ok(Some(Term::FalseE(fact)))
}

/// `a & b` by the proofs of both.
pub(crate) fn paired(alloc: Global, left: Shared<Term>, right: Term) -> Result<Term, AllocError>
    ensures { IfOk result (λ term. term ≡ T.ConjI left right) }
{
    match Shared::new(alloc, right) {
        Ok(right) => Ok(Term::ConjI(left, right)),
        Err(fault) => {
            drop(left);
            Err(fault)
        }
    }
}

/// A part of a fact, and the fact, cited.
#[derive(Drop)]
pub(crate) struct Cited {
    pub(crate) part: Shared<Formula>,
    pub(crate) fact: Shared<Term>,
}

/// The same, of this part of the fact.
fn cited_with(alloc: Global, local: &Local, part: &Shared<Formula>) -> Result<Cited, AllocError>
    ensures { IfOk result (λ c. c ≡ record { part = part.now; fact = citing local.now }) }
{
    let (part, fact) = both(part.copy(), fact_of(alloc, local))?;
    Ok(Cited { part, fact })
}

/// The goal by the fact `a --> b` and the proof of `a`.
pub(crate) fn followed_by(
    alloc: Global,
    local: &Local,
    a: &Shared<Formula>,
    part: Term,
) -> Result<Term, AllocError>
    ensures { IfOk result (λ term. term ≡ T.ImpE a.now (citing local.now) part) }
{
    let part = Shared::new(alloc, part)?;
    match cited_with(alloc, local, a) {
        Ok(cited) => Ok(Term::ImpE(cited.part, cited.fact, part)),
        Err(fault) => {
            drop(part);
            Err(fault)
        }
    }
}

/// `False` by the fact `~a` and the proof of `a`.
pub(crate) fn contradicted_by(
    alloc: Global,
    local: &Local,
    a: &Shared<Formula>,
    part: Term,
) -> Result<Term, AllocError>
    ensures { IfOk result (λ term. term ≡ T.NotE a.now (citing local.now) part) }
{
    let part = Shared::new(alloc, part)?;
    match cited_with(alloc, local, a) {
        Ok(cited) => Ok(Term::NotE(cited.part, cited.fact, part)),
        Err(fault) => {
            drop(part);
            Err(fault)
        }
    }
}

/// A case of a fact `a | b`: the name that its assumption has, and its proof.
#[derive(Drop)]
pub(crate) struct Case {
    pub(crate) name: Name,
    pub(crate) part: Shared<Term>,
}

/// The case of this proof, whose assumption has this name.
pub(crate) fn case_of(alloc: Global, name: Name, part: Term) -> Result<Case, AllocError>
    ensures { IfOk result (λ case. case ≡ record { name = name; part = part }) }
{
    let part = Shared::new(alloc, part)?;
    Ok(Case { name, part })
}

/// The sides of a fact `a | b`, and the fact, cited.
#[derive(Drop)]
struct Sides {
    a: Shared<Formula>,
    b: Shared<Formula>,
    fact: Shared<Term>,
}

/// The same, of this fact.
fn sides_of(
    alloc: Global,
    local: &Local,
    a: &Shared<Formula>,
    b: &Shared<Formula>,
) -> Result<Sides, AllocError>
    ensures { IfOk result (λ s. s
        ≡ record { a = a.now; b = b.now; fact = citing local.now }) }
{
    let (a, b, fact) = each_of_three(a.copy(), b.copy(), fact_of(alloc, local))?;
    Ok(Sides { a, b, fact })
}

/// The goal by the cases of a fact `a | b`.
pub(crate) fn joined(
    alloc: Global,
    local: &Local,
    a: &Shared<Formula>,
    b: &Shared<Formula>,
    left: Case,
    right: Case,
) -> Result<Term, AllocError>
    ensures { IfOk result (λ term. term
        ≡ T.DisjE a.now b.now (citing local.now) left.name left.part right.name right.part) }
{
    match sides_of(alloc, local, a, b) {
        Ok(of) => Ok(Term::DisjE(
            of.a, of.b, of.fact, left.name, left.part, right.name, right.part,
        )),
        Err(fault) => {
            drop((left, right));
            Err(fault)
        }
    }
}
