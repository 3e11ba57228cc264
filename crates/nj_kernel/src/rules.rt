//! The propositional rules.

ghost use Rattle.std.specs.Prelude.{◌≡◌, IfOk, [], ◌∷◌};
ghost use Rattle.nj_formula.specs.Meaning.{meaning};
ghost use Rattle.nj_kernel.specs.Theorem.{assumed, shown};
ghost use Rattle.nj_kernel.specs.Rules.{ConjI, ConjE1, ConjE2, DisjI1, DisjI2, DisjE};
ghost use Rattle.nj_kernel.specs.Rules.{ImpI, ImpE, NotI, NotE, FalseE};

use crate::fault::{RuleError, misfit};
use crate::hyps::{single, union_without, without};
use crate::made::{also, also_copied, and, implies, joined, joined_copied, or};
use crate::rule::Rule;
use crate::thm::Thm;
use nj_formula::Formula;
use std::alloc::{AllocError, Global};

/// A from A.
pub fn assume(alloc: Global, a: &Formula) -> Result<Thm, AllocError>
    ensures assumed { IfOk result (λ t. assumed t ≡ meaning a.now ∷ []) }
    ensures shown { IfOk result (λ t. shown t ≡ meaning a.now) }
{
    let hyps = single(alloc, a)?;
    Ok(Thm::derived(hyps, a.copy(alloc)?))
}

/// From A and B to A & B.
pub fn conj_i(alloc: Global, t: &Thm, u: &Thm) -> Result<Thm, RuleError>
    ensures { ConjI (assumed t.now) (shown t.now) (assumed u.now) (shown u.now) result }
{
    let concl = and(alloc, t.concl(), u.concl())?;
    joined(alloc, t.hyps(), u.hyps(), concl)
}

/// From A & B to A.
pub fn conj_e1(alloc: Global, t: &Thm) -> Result<Thm, RuleError>
    ensures { ConjE1 (assumed t.now) (shown t.now) result }
{
    match t.concl() {
        Formula::And(a, _) => also_copied(alloc, t, a.get()),
        _ => Err(misfit(Rule::ConjE1, 1)),
    }
}

/// From A & B to B.
pub fn conj_e2(alloc: Global, t: &Thm) -> Result<Thm, RuleError>
    ensures { ConjE2 (assumed t.now) (shown t.now) result }
{
    match t.concl() {
        Formula::And(_, b) => also_copied(alloc, t, b.get()),
        _ => Err(misfit(Rule::ConjE2, 1)),
    }
}

/// From A to A | B, where B is `other`.
pub fn disj_i1(alloc: Global, t: &Thm, other: &Formula) -> Result<Thm, RuleError>
    ensures { DisjI1 (assumed t.now) (shown t.now) (meaning other.now) result }
{
    let concl = or(alloc, t.concl(), other)?;
    also(t, concl)
}

/// From B to A | B, where A is `other`.
pub fn disj_i2(alloc: Global, t: &Thm, other: &Formula) -> Result<Thm, RuleError>
    ensures { DisjI2 (assumed t.now) (shown t.now) (meaning other.now) result }
{
    let concl = or(alloc, other, t.concl())?;
    also(t, concl)
}

/// From A | B, from C with A assumed and from C with B assumed, to C.
pub fn disj_e(alloc: Global, t: &Thm, u: &Thm, v: &Thm) -> Result<Thm, RuleError>
    ensures { DisjE (assumed t.now) (shown t.now) (assumed u.now) (shown u.now)
        (assumed v.now) (shown v.now) result }
{
    match t.concl() {
        Formula::Or(a, b) => {
            if !u.concl().same(v.concl()) {
                return Err(misfit(Rule::DisjE, 3));
            }
            let left = union_without(alloc, t.hyps(), u.hyps(), a.get())?;
            let right = without(alloc, v.hyps(), b.get())?;
            joined_copied(
                alloc,
                left.get().as_slice(),
                right.get().as_slice(),
                u.concl(),
            )
        }
        _ => Err(misfit(Rule::DisjE, 1)),
    }
}

/// From B, with A assumed, to A --> B.
pub fn imp_i(alloc: Global, a: &Formula, t: &Thm) -> Result<Thm, RuleError>
    ensures { ImpI (meaning a.now) (assumed t.now) (shown t.now) result }
{
    let remaining = without(alloc, t.hyps(), a)?;
    let concl = implies(alloc, a, t.concl())?;
    Ok(Thm::derived(remaining, concl))
}

/// From A --> B and A to B.
pub fn imp_e(alloc: Global, t: &Thm, u: &Thm) -> Result<Thm, RuleError>
    ensures { ImpE (assumed t.now) (shown t.now) (assumed u.now) (shown u.now) result }
{
    match t.concl() {
        Formula::Implies(a, b) => {
            if !a.get().same(u.concl()) {
                return Err(misfit(Rule::ImpE, 2));
            }
            joined_copied(alloc, t.hyps(), u.hyps(), b.get())
        }
        _ => Err(misfit(Rule::ImpE, 1)),
    }
}

/// From False, with A assumed, to ~A.
pub fn not_i(alloc: Global, a: &Formula, t: &Thm) -> Result<Thm, RuleError>
    ensures { NotI (meaning a.now) (assumed t.now) (shown t.now) result }
{
    match t.concl() {
        Formula::False => {
            let hyps = without(alloc, t.hyps(), a)?;
            let concl = Formula::not(alloc, a.copy(alloc)?)?;
            Ok(Thm::derived(hyps, concl))
        }
        _ => Err(misfit(Rule::NotI, 1)),
    }
}

/// From ~A and A to False.
pub fn not_e(alloc: Global, t: &Thm, u: &Thm) -> Result<Thm, RuleError>
    ensures { NotE (assumed t.now) (shown t.now) (assumed u.now) (shown u.now) result }
{
    match t.concl() {
        Formula::Not(a) => {
            if !u.concl().same(a.get()) {
                return Err(misfit(Rule::NotE, 2));
            }
            joined(alloc, t.hyps(), u.hyps(), Formula::False)
        }
        _ => Err(misfit(Rule::NotE, 1)),
    }
}

/// From False to C.
pub fn false_e(alloc: Global, t: &Thm, c: &Formula) -> Result<Thm, RuleError>
    ensures { FalseE (assumed t.now) (shown t.now) (meaning c.now) result }
{
    match t.concl() {
        Formula::False => also_copied(alloc, t, c),
        _ => Err(misfit(Rule::FalseE, 1)),
    }
}
