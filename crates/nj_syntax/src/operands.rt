//! Tokens of formulas: the first one of an operand, and those that follow an operand.

ghost use Rattle.std.specs.Prelude.{◌≡◌, ◌∷◌, reverse, length, IfOk, Some, nat_lt};
ghost use Rattle.nj_syntax.specs.declared.state.Mode.{Mode as Modes};
ghost use Rattle.nj_syntax.specs.Reduced.{place};
ghost use Rattle.nj_syntax.specs.Steps.{goes, step_word, step_quantifier, step_operand, step_operator};
ghost use Rattle.nj_syntax.specs.Steps.{after_closed, after_reduced, step};
ghost use Rattle.nj_syntax.specs.Reduced.{reduced as up_to, closed_operand as up_to_parenthesis};
ghost use Rattle.nj_syntax.specs.Seen.{seen_step};

use crate::operator::{Operator, Quantifier};
use crate::reduce::{closed, reduced};
use crate::state::{Mode, Pending, State, Step};
use crate::token::Token;
use nj_formula::{Formula, Name};
use sqlite_items::Items;
use std::alloc::{AllocError, Global};

/// The next mode, with nothing more pending.
pub fn stay(mode: Mode, pending: Items<Pending>) -> Step
    ensures { seen_step (Some result) ≡ goes mode (reverse pending) (length (reverse pending)) }
{
    let depth = pending.len();
    Step {
        state: State { mode, pending },
        depth,
    }
}

/// One thing more pending.
pub fn pushed(pending: Items<Pending>, new: Pending) -> Result<Items<Pending>, AllocError>
    ensures { IfOk result (λ all. reverse all ≡ new ∷ reverse pending) }
{
    let mut pending = pending;
    pending.push(new)?;
    Ok(pending)
}

/// On to an operand, with one thing more pending.
pub fn begin_operand(pending: Items<Pending>, new: Pending) -> Result<Option<Step>, AllocError>
    ensures { IfOk result (λ s.
        seen_step s ≡ goes Modes.Operand (new ∷ reverse pending) (length (reverse pending))) }
{
    let depth = pending.len();
    let pending = pushed(pending, new)?;
    let mode = Mode::Operand;
    Ok(Some(Step {
        state: State { mode, pending },
        depth,
    }))
}

/// On to an argument, with one thing more pending.
pub fn begin_argument(pending: Items<Pending>, new: Pending) -> Result<Option<Step>, AllocError>
    ensures { IfOk result (λ s.
        seen_step s ≡ goes Modes.Argument (new ∷ reverse pending) (length (reverse pending))) }
{
    let depth = pending.len();
    let pending = pushed(pending, new)?;
    let mode = Mode::Argument;
    Ok(Some(Step {
        state: State { mode, pending },
        depth,
    }))
}

/// Whether an operator waits for its operand. No quantifier may stand there.
fn wants_operand(pending: &[Pending]) -> bool
    ensures { result ≡ nat_lt 10 (place (reverse pending.now)) }
{
    match pending {
        [.., Pending::Not] | [.., Pending::Right(_, _)] => true,
        _ => false,
    }
}

/// A quantifier where an operand may begin.
fn quantifier(pending: Items<Pending>, q: Quantifier) -> Option<Step>
    ensures { seen_step result ≡ step_quantifier (reverse pending) q }
{
    if wants_operand(pending.as_slice()) {
        None
    } else {
        Some(stay(Mode::Binder(q), pending))
    }
}

/// A name at the beginning of an operand.
fn word(alloc: Global, pending: Items<Pending>, name: &Name) -> Result<Option<Step>, AllocError>
    ensures { IfOk result (λ s. seen_step s ≡ step_word (reverse pending) name.now) }
{
    if name.is("False") {
        Ok(Some(stay(Mode::Operator(Formula::False), pending)))
    } else if name.is("ALL") {
        Ok(quantifier(pending, Quantifier::All))
    } else if name.is("EX") {
        Ok(quantifier(pending, Quantifier::Exists))
    } else {
        Ok(Some(stay(Mode::Atom(name.copy(alloc)?), pending)))
    }
}

/// The name that a quantifier binds.
pub fn after_binder(
    alloc: Global,
    pending: Items<Pending>,
    q: Quantifier,
    name: &Name,
) -> Result<Option<Step>, AllocError>
    ensures { IfOk result (λ s. seen_step s
        ≡ goes (Modes.Dot q name.now) (reverse pending) (length (reverse pending))) }
{
    let name = name.copy(alloc)?;
    Ok(Some(stay(Mode::Dot(q, name), pending)))
}

/// The first token of an operand.
pub fn operand(
    alloc: Global,
    pending: Items<Pending>,
    token: &Token,
) -> Result<Option<Step>, AllocError>
    ensures { IfOk result (λ s. seen_step s ≡ step_operand (reverse pending) token.now) }
{
    match token {
        Token::Name(name) => word(alloc, pending, name),
        Token::Not => begin_operand(pending, Pending::Not),
        Token::Open => begin_operand(pending, Pending::Parenthesis),
        _ => Ok(None),
    }
}

/// An operator between the operand and the next one.
fn operator(
    alloc: Global,
    pending: Items<Pending>,
    operand: Formula,
    op: Operator,
) -> Result<Option<Step>, AllocError>
    ensures { IfOk result (λ s.
        seen_step s ≡ after_reduced op (up_to op (reverse pending) operand)) }
{
    let held = reduced(alloc, op, pending, operand)?;
    let right = Pending::Right(op, held.operand);
    begin_operand(held.pending, right)
}

/// A parenthesis that closes after the operand.
fn close(
    alloc: Global,
    pending: Items<Pending>,
    operand: Formula,
) -> Result<Option<Step>, AllocError>
    ensures { IfOk result (λ s.
        seen_step s ≡ after_closed (up_to_parenthesis (reverse pending) operand)) }
{
    match closed(alloc, pending, operand)? {
        Some(held) => Ok(Some(stay(Mode::Operator(held.operand), held.pending))),
        None => Ok(None),
    }
}

/// A token after an operand.
pub fn after_operand(
    alloc: Global,
    pending: Items<Pending>,
    operand: Formula,
    token: &Token,
) -> Result<Option<Step>, AllocError>
    ensures { IfOk result (λ s. seen_step s ≡ step_operator (reverse pending) operand token.now) }
{
    match token {
        Token::And => operator(alloc, pending, operand, Operator::And),
        Token::Or => operator(alloc, pending, operand, Operator::Or),
        Token::Implies => operator(alloc, pending, operand, Operator::Implies),
        Token::Close => close(alloc, pending, operand),
        _ => Ok(None),
    }
}

/// A token after the name of an atom, which may open the atom's arguments.
pub fn after_atom(
    alloc: Global,
    pending: Items<Pending>,
    name: Name,
    token: &Token,
) -> Result<Option<Step>, AllocError>
    ensures { IfOk result (λ s. seen_step s ≡ step (Modes.Atom name, reverse pending) token.now) }
{
    match token {
        Token::Open => {
            let predicate = Pending::Predicate(name, Items::new(alloc));
            begin_argument(pending, predicate)
        }
        _ => {
            let atom = Formula::atom(alloc, name, Items::new(alloc))?;
            after_operand(alloc, pending, atom, token)
        }
    }
}
