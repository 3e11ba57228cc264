ghost use Rattle.std.specs.Prelude.{◌≡◌, IfOk};
ghost use Rattle.nj_syntax.specs.Steps.{step};
ghost use Rattle.nj_syntax.specs.Seen.{seen, seen_step};

use crate::arguments::{after_argument, after_head, argument};
use crate::operands::{after_atom, after_binder, after_operand, begin_operand, operand};
use crate::state::{Mode, Pending, State, Step};
use crate::token::Token;
use std::alloc::{AllocError, Global};

impl State {
    /// The state after one more token, or None where the token can't stand here.
    pub fn step(self, alloc: Global, token: &Token) -> Result<Option<Step>, AllocError>
        ensures { IfOk result (λ s. seen_step s ≡ step (seen self) token.now) }
    {
        let State { mode, pending } = self;
        match (mode, token) {
            (Mode::Operand, token) => operand(alloc, pending, token),
            (Mode::Binder(q), Token::Name(name)) => after_binder(alloc, pending, q, name),
            (Mode::Dot(q, name), Token::Dot) => begin_operand(pending, Pending::Body(q, name)),
            (Mode::Atom(name), token) => after_atom(alloc, pending, name, token),
            (Mode::Operator(a), token) => after_operand(alloc, pending, a, token),
            (Mode::Argument, Token::Name(name)) => argument(alloc, pending, name),
            (Mode::Head(name), token) => after_head(alloc, pending, name, token),
            (Mode::Comma(argument), token) => after_argument(alloc, pending, argument, token),
            _ => Ok(None),
        }
    }
}
