//! The writer.

use crate::locked::Locked;
use crate::sending::{LoseTurn, SendTurn, Sending};
use crate::watching::look_until_ended;
use hist_lock::{Pass, Shared};
use language::Language;
use reply_outbox::Past;
use session_rules::{Entry, Service};
use std::sync::Wait;
use view_laws::{handed_law, owners_law, reader_law};
use worker_loop::{Next, Outbox};

/// Takes a session's replies, each of them a piece.
#[derive(Drop)]
pub struct Writer;

impl<L: Language, P: Past<Service, Entry> + Drop> Outbox<Locked<L, P>> for Writer {
    ghost use Rattle.view_laws.specs.Says.{says};
    ghost use Rattle.view_laws.specs.Sent.{bytes_sent};
    ghost use Rattle.view_laws.proofs.KnownHanded.{others_hand_nothing};

    ghost says = { says };

    ghost sent = { bytes_sent L.lang };

    ghost others_hand_nothing = { others_hand_nothing L.lang };

    fn next<R: Wait>(
        &self,
        rt: &R,
        lock: &Shared<Locked<L, P>>,
        pass: &mut Pass<Locked<L, P>>,
        who: u32,
    ) -> Next {
        handed_law::<L>();
        owners_law();
        reader_law::<L>();
        match lock.turn(rt, pass, SendTurn { who }) {
            Sending::Piece(piece) => Next::Piece(piece),
            Sending::Nothing => Next::Nothing,
            Sending::Ended => Next::Ended,
            Sending::NotWriter => {
                look_until_ended(rt, lock, pass);
                Next::Ended
            }
        }
    }

    fn lose<R: Wait>(
        &self,
        rt: &R,
        lock: &Shared<Locked<L, P>>,
        pass: &mut Pass<Locked<L, P>>,
        who: u32,
    ) {
        handed_law::<L>();
        owners_law();
        lock.turn(rt, pass, LoseTurn);
    }
}
