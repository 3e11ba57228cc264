//! What rules make: formulas of two others, and theorems of a formula, whose parts are shared.

ghost use Rattle.std.specs.Prelude.{◌≡◌, List, map, IsTrue, IfOk};
ghost use Rattle.nj_formula.specs.Statement.{Statement, conj, disj, implies as implied};
ghost use Rattle.nj_formula.specs.Meaning.{meaning};
ghost use Rattle.nj_kernel.specs.Nj.{Nj};
ghost use Rattle.nj_kernel.specs.Sets.{members, ◌∪◌, Lists};
ghost use Rattle.nj_kernel.specs.Order.{rises};
ghost use Rattle.nj_kernel.specs.Theorem.{assumed};
ghost use Rattle.nj_kernel.specs.Rules.{Makes};

use crate::fault::RuleError;
use crate::hyp::Hyp;
use crate::hyps::union;
use crate::thm::Thm;
use nj_formula::Formula;
use std::alloc::{AllocError, Global};

fn copies(alloc: Global, a: &Formula, b: &Formula) -> Result<(Formula, Formula), AllocError>
    ensures { IfOk result (λ both. both ≡ (a.now, b.now)) }
{
    let left = a.copy(alloc)?;
    Ok((left, b.copy(alloc)?))
}

pub(crate) fn and(alloc: Global, a: &Formula, b: &Formula) -> Result<Formula, AllocError>
    ensures { IfOk result (λ f. meaning f ≡ conj (meaning a.now) (meaning b.now)) }
{
    let (left, right) = copies(alloc, a, b)?;
    Formula::and(alloc, left, right)
}

pub(crate) fn or(alloc: Global, a: &Formula, b: &Formula) -> Result<Formula, AllocError>
    ensures { IfOk result (λ f. meaning f ≡ disj (meaning a.now) (meaning b.now)) }
{
    let (left, right) = copies(alloc, a, b)?;
    Formula::or(alloc, left, right)
}

pub(crate) fn implies(alloc: Global, a: &Formula, b: &Formula) -> Result<Formula, AllocError>
    ensures { IfOk result (λ f. meaning f ≡ implied (meaning a.now) (meaning b.now)) }
{
    let (left, right) = copies(alloc, a, b)?;
    Formula::implies(alloc, left, right)
}

/// A theorem of `concl` that assumes what `t` does, by a rule of NJ.
pub(crate) fn also(t: &Thm, concl: Formula) -> Result<Thm, RuleError>
    requires { ∥ Nj (assumed t.now) (meaning concl) ∥₁ }
    ensures { Makes result (members (assumed t.now)) (meaning concl) }
{
    Ok(Thm::derived(t.shared_hyps()?, concl))
}

/// The same, of a formula that is copied.
pub(crate) fn also_copied(alloc: Global, t: &Thm, concl: &Formula) -> Result<Thm, RuleError>
    requires { ∥ Nj (assumed t.now) (meaning concl.now) ∥₁ }
    ensures { Makes result (members (assumed t.now)) (meaning concl.now) }
{
    let concl = concl.copy(alloc)?;
    also(t, concl)
}

/// A theorem of `concl` that assumes what stands in either set, by a rule of NJ.
pub(crate) fn joined(alloc: Global, s: &[Hyp], t: &[Hyp], concl: Formula) -> Result<Thm, RuleError>
    requires left { IsTrue (rises (map meaning s.now)) }
    requires right { IsTrue (rises (map meaning t.now)) }
    requires rule { (u : List Statement)
        → Lists u (members (map meaning s.now) ∪ members (map meaning t.now))
        → ∥ Nj u (meaning concl) ∥₁ }
    ensures { Makes result (members (map meaning s.now) ∪ members (map meaning t.now))
        (meaning concl) }
{
    Ok(Thm::derived(union(alloc, s, t)?, concl))
}

/// The same, of a formula that is copied.
pub(crate) fn joined_copied(
    alloc: Global,
    s: &[Hyp],
    t: &[Hyp],
    concl: &Formula,
) -> Result<Thm, RuleError>
    requires left { IsTrue (rises (map meaning s.now)) }
    requires right { IsTrue (rises (map meaning t.now)) }
    requires rule { (u : List Statement)
        → Lists u (members (map meaning s.now) ∪ members (map meaning t.now))
        → ∥ Nj u (meaning concl.now) ∥₁ }
    ensures { Makes result (members (map meaning s.now) ∪ members (map meaning t.now))
        (meaning concl.now) }
{
    let concl = concl.copy(alloc)?;
    joined(alloc, s, t, concl)
}
