//! Laws over definitions alone.

ghost use Rattle.std.specs.Prelude.{List, []};
ghost use Rattle.nj_formula.specs.Statement.{Statement, falsity};
ghost use Rattle.nj_formula.specs.Truth.{Assignment, truth};
ghost use Rattle.nj_kernel.specs.Nj.{Nj};
ghost use Rattle.nj_kernel.specs.Sets.{members};

use nj_formula::Structure;

/// A law: in each structure, and whatever the free names are there, what is derived is true where
/// all that it assumes is true.
pub fn soundness_law<S: Structure>()
    ensures { (v : Assignment S.Point) (s : List Statement) (a : Statement) → Nj s a
        → ((f : Statement) → members s f → truth S.apply S.holds v [] f)
        → truth S.apply S.holds v [] a }
{}

/// A law: nothing at all derives False from no assumption.
pub fn consistency_law()
    ensures { ¬ Nj [] falsity }
{}
