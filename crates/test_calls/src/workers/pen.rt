//! The writer of the board.
ghost use Rattle.std.specs.Option.{option_map};
ghost use Rattle.test_calls.specs.Bytes.{RestsSo};

use super::board::{Board, Look, Mark, Send};
use super::hands::say;
use hist_lock::{Pass, Shared};
use std::alloc::Global;
use std::sync::Wait;
use worker_loop::{Next, Outbox, Said};

/// Takes a byte of the board at a time.
#[derive(Drop)]
pub(super) struct Pen {
    pub(super) alloc: Global,
}

/// What stays to be done, by the last word of the board.
fn resting(last: Option<Mark>) -> Next
    ensures { RestsSo (option_map (λ m. m.what) last) result }
{
    match last {
        Some(mark) => match mark.what {
            Said::Ended => Next::Ended,
            _ => Next::Nothing,
        },
        None => Next::Nothing,
    }
}

impl Outbox<Board> for Pen {
    ghost use Rattle.std.proofs.Common.{ap};
    ghost use Rattle.hist_lock.specs.Entries.{own};
    ghost use Rattle.test_calls.specs.Bytes.{bytes_of};

    ghost says = { λ m. m.what };

    ghost sent = { λ who log. bytes_of (λ m. m.byte) (own (λ m. m.by) who log) };

    ghost others_hand_nothing = { λ who seen more legal begins same.
        ap (bytes_of (λ m. m.byte)) same };

    fn next<R: Wait>(
        &self,
        rt: &R,
        lock: &Shared<Board>,
        pass: &mut Pass<Board>,
        who: u32,
    ) -> Next {
        let Ok(mut piece) = Vec::with_capacity(self.alloc, 1) else {
            return resting(lock.turn(rt, pass, Look));
        };
        match lock.turn(rt, pass, Send { by: who }) {
            Ok(byte) => {
                if piece.push(byte).is_err() {
                    unreachable!();
                }
                Next::Piece(piece)
            }
            Err(last) => resting(last),
        }
    }

    fn lose<R: Wait>(&self, rt: &R, lock: &Shared<Board>, pass: &mut Pass<Board>, who: u32) {
        say(rt, lock, pass, who, Said::Lost);
    }
}
