//! The reader, as what answers messages.

use crate::answering::answer;
use crate::crew::Crew;
use crate::locked::Locked;
use byte_message::Message;
use hist_lock::{Pass, Shared, State};
use language::Language;
use message_input::{Answering, Halt};
use pide_base::Gate;
use reply_outbox::Past;
use session_rules::{Entry, Service};
use std::sync::Wait;

/// Has each message answered at its own turn.
pub(crate) struct Reader<'a, 'l, L, S: State, R, G> {
    pub(crate) rt: &'a R,
    pub(crate) crew: &'a Crew<'l, L>,
    pub(crate) lock: &'a Shared<S>,
    pub(crate) gate: &'a G,
    pub(crate) pass: Pass<S>,
}

impl<'a, 'l, L: Language, P: Past<Service, Entry> + Drop, R: Wait, G: Gate> Answering
    for Reader<'a, 'l, L, Locked<L, P>, R, G> {
    ghost use Rattle.thread_serve.specs.Reader.{Ends, GoesOn, Halts, IsAtRest};
    ghost use Rattle.thread_serve.specs.Joins.{goes_later, halts_first, halts_later, stays};

    ghost rests = { λ a. IsAtRest a.lock.now a.pass };

    ghost goes = { λ a messages b. GoesOn a.lock.now b.lock.now a.pass b.pass messages };

    ghost halts = { λ a first halt rest b. Halts a.lock.now b.lock.now a.pass b.pass first halt };

    ghost ends = { λ a b. Ends a.lock.now b.lock.now a.pass b.pass };

    fn answer(&mut self, message: Message) -> Result<(), Halt> {
        answer(
            self.rt,
            self.crew,
            self.lock,
            &mut self.pass,
            self.gate,
            message,
        )
    }

    fn end(&mut self) {
        self.crew.end(self.rt, self.lock, &mut self.pass);
    }

    ghost stays = { λ a rests. stays a.lock.now a.pass rests };

    ghost rests_then = { λ a b messages goes. goes.rests };

    ghost goes_on = { λ a b c first then one more. goes_later a.lock.now b.lock.now c.lock.now
        a.pass b.pass c.pass first then one more };

    ghost halts_later = { λ a b c first then rest halt one more. halts_later a.lock.now b.lock.now
        c.lock.now a.pass b.pass c.pass first then halt one more };

    ghost more_wait = { λ a b first rest more halt one. one };

    ghost short = { λ a rest rests. halts_first a.lock.now a.pass rests };
}
