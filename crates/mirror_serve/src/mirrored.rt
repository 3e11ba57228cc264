//! A session, a mirror and a sink that answer messages on one thread.

use crate::answering::{pass_on, show};
use crate::ear::Ear;
use crate::look::look_of;
use byte_message::Message;
use document_session::Session;
use language::Language;
use message_input::{Answering, Halt};
use pide_base::Sink;
use reply_outbox::Past;
use session_rules::{Entry, Service};
use std::alloc::Global;

/// Answers each message by its session, but snapshots by its mirror, which hears what the session
/// replies; and writes it.
pub(crate) struct Mirrored<'l, L: Language, P: Past<Service, Entry> + Drop, K: Sink> {
    pub(crate) alloc: Global,
    pub(crate) lang: &'l L,
    pub(crate) session: Session<L, P>,
    pub(crate) ear: Ear,
    pub(crate) sink: K,
}

impl<'l, L: Language, P: Past<Service, Entry> + Drop, K: Sink> Answering for Mirrored<'l, L, P, K> {
    ghost use Rattle.std.specs.Prelude.{◌≡◌, ◌≤◌};
    ghost use Rattle.document_serve.specs.Runs.{GoesOn, IsEnded};
    ghost use Rattle.document_serve.specs.Joins.{goes_later, stays, steady_first, steady_later};
    ghost use Rattle.mirror_serve.specs.Resting.{Rests};
    ghost use Rattle.mirror_serve.specs.Halts.{HaltsSo};
    ghost use Rattle.mirror_serve.specs.Joins.{halts_later, more_halts, short_halts};

    ghost rests = { λ a. Rests L.lang a.session a.ear };

    ghost goes = { λ a messages b. GoesOn L.lang (K.contents a.sink) (K.contents b.sink)
        a.session b.session messages × (K.faults a.sink ≤ K.faults b.sink)
        × Rests L.lang b.session b.ear };

    ghost halts = { λ a first halt rest b. HaltsSo L.lang halt (K.contents a.sink)
        (K.contents b.sink) (K.faults a.sink) (K.faults b.sink) a.session b.session first rest };

    ghost ends = { λ a b. IsEnded L.lang a.session b.session
        × (K.contents b.sink ≡ K.contents a.sink) × (K.faults b.sink ≡ K.faults a.sink) };

    fn answer(&mut self, message: Message) -> Result<(), Halt> {
        match look_of(self.alloc, &message)? {
            Some(look) => show(
                self.alloc,
                &mut self.session,
                &mut self.sink,
                &self.ear,
                message,
                look,
            ),
            None => pass_on(
                self.alloc,
                self.lang,
                &mut self.session,
                &mut self.sink,
                &mut self.ear,
                message,
            ),
        }
    }

    fn end(&mut self) {
        self.session.end();
    }

    ghost stays = { λ a rests. (
      stays L.lang (K.contents a.sink) a.session rests.session,
      steady_first (K.faults a.sink),
      rests,
    ) };

    ghost rests_then = { λ a b messages goes. goes.2 };

    ghost goes_on = { λ a b c first then one more. (
      goes_later L.lang (K.contents a.sink)
          (K.contents b.sink) (K.contents c.sink) a.session b.session c.session first one.0 then
          more.0,
      steady_later _ _ _ one.1 more.1,
      more.2,
    ) };

    ghost halts_later = { λ a b c first then rest halt one more. halts_later L.lang
        (K.contents a.sink) (K.contents b.sink) (K.contents c.sink) (K.faults a.sink)
        (K.faults b.sink) (K.faults c.sink) a.session b.session c.session first one.0 one.1 halt
        then rest more };

    ghost more_wait = { λ a b first rest more halt one. more_halts L.lang halt (K.contents a.sink)
        (K.contents b.sink) (K.faults a.sink) (K.faults b.sink) a.session b.session first rest
        more one };

    ghost short = { λ a rest rests. short_halts L.lang (K.contents a.sink) (K.faults a.sink)
        a.session rest rests.session };
}
