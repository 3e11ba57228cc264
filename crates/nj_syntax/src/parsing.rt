ghost use Rattle.std.specs.Prelude.{◌≡◌, IsTrue};
ghost use Rattle.nj_formula.specs.Closed.{is_closed};
ghost use Rattle.nj_syntax.specs.Answers.{Answers, IsFormula, IsTerm};
ghost use Rattle.nj_syntax.specs.Answer.{ended};

use crate::fault::{FaultKind, FormulaFault};
use crate::state::{Mode, State};
use nj_formula::{Argument, Formula, ObjTerm};
use sqlite_items::Items;
use std::alloc::Global;

/// The formula that the text is, a list of Unicode scalars. The faults are told in scalars: the
/// first place with which no formula goes on, unless a token before it is too deep. It looks no
/// further than the fault.
pub fn parse(alloc: Global, text: &[char]) -> Result<Formula, FormulaFault>
    ensures { Answers IsFormula text.now result }
{
    let start = State {
        mode: Mode::Operand,
        pending: Items::new(alloc),
    };
    let end = start.read(alloc, text)?;
    let found = end.state.formula(alloc)?;
    ended(found, end.stop, end.whole)
}

/// The term that the text is, with the faults of a formula.
pub fn parse_term(alloc: Global, text: &[char]) -> Result<ObjTerm, FormulaFault>
    ensures { Answers IsTerm text.now result }
{
    match argument(alloc, text) {
        Ok(argument) => Ok(without_places(argument)),
        Err(fault) => Err(fault),
    }
}

/// The term as an argument.
fn argument(alloc: Global, text: &[char]) -> Result<Argument, FormulaFault>
    ensures { Answers IsTerm text.now result }
{
    let start = State {
        mode: Mode::Argument,
        pending: Items::new(alloc),
    };
    let end = start.read(alloc, text)?;
    ended(end.state.term(), end.stop, end.whole)
}

/// No quantifier stands around a term by itself.
fn without_places(argument: Argument) -> ObjTerm
    requires { IsTrue (is_closed argument) }
    ensures { result ≡ argument }
{
    match ObjTerm::new(argument) {
        Some(term) => term,
        None => unreachable!(),
    }
}

/// The answer where all tokens have been read and, where they end, this has been found.
fn ended<T: Drop>(found: Option<T>, stop: usize, whole: bool) -> Result<T, FormulaFault>
    ensures { result ≡ ended found stop whole }
{
    let kind = if whole {
        FaultKind::End
    } else {
        FaultKind::Symbol
    };
    match found {
        Some(found) if whole => Ok(found),
        _ => Err(FormulaFault::At { pos: stop, kind }),
    }
}
