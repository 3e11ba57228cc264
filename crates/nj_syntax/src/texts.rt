//! The text of a formula.
ghost use Rattle.std.specs.Prelude.{◌≡◌, IfOk, string_bytes};
ghost use Rattle.nj_syntax.specs.Printed.{formula_text};

use crate::printer::print;
use crate::text_law::one_formula_text;
use nj_formula::Formula;
use std::alloc::{AllocError, Global};

/// The text of the formula, with the fewest parentheses. An error says that there was no memory.
pub fn formula_text(alloc: Global, formula: &Formula) -> Result<String, AllocError>
    ensures { IfOk result (λ text. string_bytes text ≡ formula_text formula.now) }
{
    one_formula_text();
    print(alloc, formula)
}
