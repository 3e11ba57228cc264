ghost use Rattle.std.specs.Prelude.{◌≡◌, reverse, IfOk, option_map};
ghost use Rattle.nj_syntax.specs.Reduced.{reduced, taken_in, closed_operand, finished};

use crate::operator::Operator;
use crate::state::Pending;
use nj_formula::Formula;
use sqlite_items::Items;
use std::alloc::{AllocError, Global};

/// What is pending, and the operand that comes next to it.
#[derive(Drop)]
pub struct Held {
    pub pending: Items<Pending>,
    pub operand: Formula,
}

/// The operand with what binds more strongly than the operator, which comes next.
pub fn reduced(
    alloc: Global,
    op: Operator,
    pending: Items<Pending>,
    operand: Formula,
) -> Result<Held, AllocError>
    ensures { IfOk result (λ held.
        (reverse held.pending, held.operand) ≡ reduced op (reverse pending) operand) }
{
    let mut pending = pending;
    let mut operand = operand;
    'up: while let Some(top) = pending.pop() {
        match top {
            Pending::Not => operand = Formula::not(alloc, operand)?,
            Pending::Right(left_op, left) if op.priority() < left_op.priority() => {
                operand = left_op.joined(alloc, left, operand)?;
            }
            other => {
                pending.push(other)?;
                break;
            }
        }
    }
    Ok(Held { pending, operand })
}

/// What takes the operand in, where it lacks nothing else.
fn taken_in(
    alloc: Global,
    pending: Pending,
    operand: Formula,
) -> Result<Option<Formula>, AllocError>
    ensures { IfOk result (λ more. more ≡ taken_in pending operand) }
{
    match pending {
        Pending::Not => Ok(Some(Formula::not(alloc, operand)?)),
        Pending::Right(op, left) => Ok(Some(op.joined(alloc, left, operand)?)),
        Pending::Body(q, name) => Ok(Some(q.over(alloc, name, operand)?)),
        _ => Ok(None),
    }
}

/// The operand with all that is pending within the parentheses, and what is pending outside of
/// them.
pub fn closed(
    alloc: Global,
    pending: Items<Pending>,
    operand: Formula,
) -> Result<Option<Held>, AllocError>
    ensures { IfOk result (λ held.
        option_map (λ h. (reverse h.pending, h.operand)) held ≡ closed_operand (reverse pending)
        operand) }
{
    let mut pending = pending;
    let mut operand = operand;
    'up: while let Some(top) = pending.pop() {
        if let Pending::Parenthesis = top {
            return Ok(Some(Held { pending, operand }));
        }
        match taken_in(alloc, top, operand)? {
            Some(more) => operand = more,
            None => return Ok(None),
        }
    }
    Ok(None)
}

/// The operand with all that is pending, where no parenthesis is open.
pub fn finished(
    alloc: Global,
    pending: Items<Pending>,
    operand: Formula,
) -> Result<Option<Formula>, AllocError>
    ensures { IfOk result (λ f. f ≡ finished (reverse pending) operand) }
{
    let mut pending = pending;
    let mut operand = operand;
    'up: while let Some(top) = pending.pop() {
        match taken_in(alloc, top, operand)? {
            Some(more) => operand = more,
            None => return Ok(None),
        }
    }
    Ok(Some(operand))
}
