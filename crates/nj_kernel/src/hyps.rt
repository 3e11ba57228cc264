//! Sets of formulas, as lists that rise in the order of their keys. Each set is made in one pass.

ghost use Rattle.std.specs.Prelude.{◌≡◌, ◌↔◌, IsTrue, IfOk, OnOk, map, [], ◌∷◌, ◌++◌};
ghost use Rattle.nj_formula.specs.Meaning.{meaning};
ghost use Rattle.nj_kernel.specs.Sets.{members, Lists, ◌∪◌, ◌∖◌, IsFreshIn};
ghost use Rattle.nj_kernel.specs.Order.{rises};

use crate::hyp::Hyp;
use nj_formula::{Formula, Shared};
use sqlite_items::Items;
use std::alloc::{AllocError, Global};
use std::cmp::Ordering;

/// The set of one formula.
pub(crate) fn single(alloc: Global, formula: &Formula) -> Result<Shared<Items<Hyp>>, AllocError>
    ensures { IfOk result (λ u. u ≡ formula.now ∷ []) }
{
    let mut only = Items::new(alloc);
    only.push(Hyp::new(alloc, formula)?)?;
    Shared::new(alloc, only)
}

/// The formulas of either set, each once.
pub(crate) fn union(alloc: Global, s: &[Hyp], t: &[Hyp]) -> Result<Shared<Items<Hyp>>, AllocError>
    requires left { IsTrue (rises (map meaning s.now)) }
    requires right { IsTrue (rises (map meaning t.now)) }
    ensures listed { IfOk result (λ u. Lists (map meaning u)
        (members (map meaning s.now) ∪ members (map meaning t.now))) }
    ensures ordered { IfOk result (λ u. IsTrue (rises (map meaning u))) }
{
    let all = both(alloc, s, t)?;
    Shared::new(alloc, all)
}

fn both(alloc: Global, s: &[Hyp], t: &[Hyp]) -> Result<Items<Hyp>, AllocError>
    requires left { IsTrue (rises (map meaning s.now)) }
    requires right { IsTrue (rises (map meaning t.now)) }
    ensures listed { IfOk result (λ u. Lists (map meaning u)
        (members (map meaning s.now) ∪ members (map meaning t.now))) }
    ensures ordered { IfOk result (λ u. IsTrue (rises (map meaning u))) }
{
    let mut all = Items::new(alloc);
    let mut left = s;
    let mut right = t;
    while let [a, after_a @ ..] = left {
        let [b, after_b @ ..] = right else {
            break;
        };
        match a.order(b) {
            Ordering::Less => {
                push_copy(alloc, &mut all, a)?;
                left = after_a;
            }
            Ordering::Equal => {
                push_copy(alloc, &mut all, a)?;
                left = after_a;
                right = after_b;
            }
            Ordering::Greater => {
                push_copy(alloc, &mut all, b)?;
                right = after_b;
            }
        }
    }
    push_all(alloc, &mut all, left)?;
    push_all(alloc, &mut all, right)?;
    Ok(all)
}

fn push_copy(alloc: Global, to: &mut Items<Hyp>, formula: &Hyp) -> Result<(), AllocError>
    ensures { OnOk result (to.new ≡ to.old ++ formula.now ∷ []) }
{
    let copy = formula.copy(alloc)?;
    to.push(copy)
}

fn push_all(alloc: Global, to: &mut Items<Hyp>, formulas: &[Hyp]) -> Result<(), AllocError>
    ensures { OnOk result (to.new ≡ to.old ++ formulas.now) }
{
    for formula in formulas {
        push_copy(alloc, to, formula)?;
    }
    Ok(())
}

/// The formulas of the set that do not say what `formula` says.
pub(crate) fn without(
    alloc: Global,
    s: &[Hyp],
    formula: &Formula,
) -> Result<Shared<Items<Hyp>>, AllocError>
    requires { IsTrue (rises (map meaning s.now)) }
    ensures listed { IfOk result (λ u. Lists (map meaning u)
        (members (map meaning s.now) ∖ meaning formula.now)) }
    ensures ordered { IfOk result (λ u. IsTrue (rises (map meaning u))) }
{
    let kept = others(alloc, s, formula)?;
    Shared::new(alloc, kept)
}

/// The formulas of either set, but for those of the second that say what `formula` says.
pub(crate) fn union_without(
    alloc: Global,
    s: &[Hyp],
    t: &[Hyp],
    formula: &Formula,
) -> Result<Shared<Items<Hyp>>, AllocError>
    requires left { IsTrue (rises (map meaning s.now)) }
    requires right { IsTrue (rises (map meaning t.now)) }
    ensures listed { IfOk result (λ u. Lists (map meaning u)
        (members (map meaning s.now) ∪ (members (map meaning t.now) ∖ meaning formula.now))) }
    ensures ordered { IfOk result (λ u. IsTrue (rises (map meaning u))) }
{
    let rest = without(alloc, t, formula)?;
    union(alloc, s, rest.get().as_slice())
}

fn others(alloc: Global, s: &[Hyp], dropped: &Formula) -> Result<Items<Hyp>, AllocError>
    requires { IsTrue (rises (map meaning s.now)) }
    ensures listed { IfOk result (λ u. Lists (map meaning u)
        (members (map meaning s.now) ∖ meaning dropped.now)) }
    ensures ordered { IfOk result (λ u. IsTrue (rises (map meaning u))) }
{
    let mut kept = Items::new(alloc);
    for member in s {
        if !member.formula().same(dropped) {
            push_copy(alloc, &mut kept, member)?;
        }
    }
    Ok(kept)
}

/// Whether the name is free in none of the formulas.
pub(crate) fn is_fresh(name: &str, formulas: &[Hyp]) -> bool
    ensures { IsTrue result ↔ IsFreshIn name.now (members (map meaning formulas.now)) }
{
    for member in formulas {
        if member.formula().has_free(name) {
            return false;
        }
    }
    true
}
