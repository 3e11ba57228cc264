//! The rules of the quantifiers. `P[x]` is the instance of a quantifier's body at x.

ghost use Rattle.std.specs.Prelude.{◌≡◌, ◌↔◌, false, map, IsTrue, IfOk};
ghost use Rattle.nj_formula.specs.declared.argument.Argument.TheVariants.{Free};
ghost use Rattle.nj_formula.specs.Meaning.{meaning};
ghost use Rattle.nj_formula.specs.Closed.{is_closed};
ghost use Rattle.nj_formula.specs.Free.{is_free};
ghost use Rattle.nj_formula.specs.Instance.{instance};
ghost use Rattle.nj_kernel.specs.Sets.{members, Lists, ◌∖◌, IsFreshIn};
ghost use Rattle.nj_kernel.specs.Order.{rises};
ghost use Rattle.nj_kernel.specs.Theorem.{assumed, shown};
ghost use Rattle.nj_kernel.specs.Rules.{AllI, AllE, ExI, ExE};

use crate::fault::{RuleError, misfit};
use crate::hyp::Hyp;
use crate::hyps::{is_fresh, without};
use crate::made::{also, also_copied, joined_copied};
use crate::rule::Rule;
use crate::thm::Thm;
use nj_formula::{Formula, ObjTerm, Shared};
use sqlite_items::Items;
use std::alloc::{AllocError, Global};

/// P[s], for a quantifier's body P.
fn at(alloc: Global, body: &Formula, s: &ObjTerm) -> Result<Formula, AllocError>
    ensures says { IfOk result (λ f. meaning f ≡ instance s.now (meaning body.now)) }
    ensures closed { IsTrue (is_closed s.now) }
{
    let at_s = body.instance(alloc, s)?;
    Ok(at_s)
}

/// Whether the theorem shows P[s].
fn is_witness(alloc: Global, s: &ObjTerm, t: &Thm, body: &Formula) -> Result<bool, AllocError>
    ensures shows { IfOk result (λ is. IsTrue is
        ↔ (shown t.now ≡ instance s.now (meaning body.now))) }
    ensures closed { IsTrue (is_closed s.now) }
{
    let at_s = at(alloc, body, s)?;
    Ok(t.concl().same(&at_s))
}

/// Whether the theorem shows P[x], and x is free in no assumption.
fn is_general(alloc: Global, x: &str, t: &Thm, body: &Formula) -> Result<bool, AllocError>
    ensures { IfOk result (λ is. IsTrue is
        ↔ (shown t.now ≡ instance (Free x.now) (meaning body.now))
        × IsFreshIn x.now (members (assumed t.now))) }
{
    let name = ObjTerm::name(alloc, x)?;
    Ok(is_witness(alloc, &name, t, body)? && is_fresh(x, t.hyps()))
}

/// From P[x] to `target`, which is ALL y. P[y]; x is free neither there nor in an assumption.
pub fn all_i(alloc: Global, x: &str, t: &Thm, target: &Formula) -> Result<Thm, RuleError>
    ensures { AllI x.now (assumed t.now) (shown t.now) (meaning target.now) result }
{
    match target {
        Formula::All(_, body) => {
            if target.has_free(x) || !is_general(alloc, x, t, body.get())? {
                return Err(misfit(Rule::AllI, 1));
            }
            also_copied(alloc, t, target)
        }
        _ => Err(misfit(Rule::AllI, 1)),
    }
}

/// From ALL y. P[y] to P[s].
pub fn all_e(alloc: Global, t: &Thm, s: &ObjTerm) -> Result<Thm, RuleError>
    ensures { AllE (assumed t.now) (shown t.now) s.now result }
{
    match t.concl() {
        Formula::All(_, body) => {
            let at_s = at(alloc, body.get(), s)?;
            also(t, at_s)
        }
        _ => Err(misfit(Rule::AllE, 1)),
    }
}

/// From P[s] to `target`, which is EX y. P[y].
pub fn ex_i(alloc: Global, s: &ObjTerm, t: &Thm, target: &Formula) -> Result<Thm, RuleError>
    ensures { ExI s.now (assumed t.now) (shown t.now) (meaning target.now) result }
{
    match target {
        Formula::Exists(_, body) => {
            if !is_witness(alloc, s, t, body.get())? {
                return Err(misfit(Rule::ExI, 1));
            }
            also_copied(alloc, t, target)
        }
        _ => Err(misfit(Rule::ExI, 1)),
    }
}

/// P[x], for a quantifier's body P.
fn at_name(alloc: Global, body: &Formula, x: &str) -> Result<Formula, AllocError>
    ensures { IfOk result (λ f. meaning f ≡ instance (Free x.now) (meaning body.now)) }
{
    let name = ObjTerm::name(alloc, x)?;
    at(alloc, body, &name)
}

/// What the theorem assumes beside P[x].
fn beside(alloc: Global, x: &str, body: &Formula, t: &Thm) -> Result<Shared<Items<Hyp>>, AllocError>
    ensures listed { IfOk result (λ u. Lists (map meaning u)
        (members (assumed t.now) ∖ instance (Free x.now) (meaning body.now))) }
    ensures ordered { IfOk result (λ u. IsTrue (rises (map meaning u))) }
{
    let at_x = at_name(alloc, body, x)?;
    without(alloc, t.hyps(), &at_x)
}

/// Whether the name is free in what neither theorem shows.
fn is_unnamed(x: &str, t: &Thm, u: &Thm) -> bool
    ensures { IsTrue result
        ↔ (is_free x.now (shown t.now) ≡ false) × (is_free x.now (shown u.now) ≡ false) }
{
    !t.concl().has_free(x) && !u.concl().has_free(x)
}

/// From EX y. P[y] and from C, with P[x] assumed, to C; x is free neither in the first, nor in C,
/// nor in an assumption that remains of the second.
pub fn ex_e(alloc: Global, x: &str, t: &Thm, u: &Thm) -> Result<Thm, RuleError>
    ensures { ExE x.now (assumed t.now) (shown t.now) (assumed u.now) (shown u.now) result }
{
    match t.concl() {
        Formula::Exists(_, body) => {
            let remaining = beside(alloc, x, body.get(), u)?;
            let remaining = remaining.get().as_slice();
            if !is_unnamed(x, t, u) || !is_fresh(x, remaining) {
                return Err(misfit(Rule::ExE, 2));
            }
            joined_copied(alloc, t.hyps(), remaining, u.concl())
        }
        _ => Err(misfit(Rule::ExE, 1)),
    }
}
