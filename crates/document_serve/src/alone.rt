//! A session and a sink that answer messages on one thread.

use crate::listening::Nobody;
use crate::serving::serve_message;
use byte_message::Message;
use document_session::Session;
use language::Language;
use message_input::{Answering, Halt};
use pide_base::Sink;
use reply_outbox::Past;
use session_rules::{Entry, Service};
use std::alloc::Global;

/// Answers each message by its session, and writes what is replied.
pub(crate) struct Alone<'l, L: Language, P: Past<Service, Entry> + Drop, K: Sink> {
    pub(crate) alloc: Global,
    pub(crate) lang: &'l L,
    pub(crate) session: Session<L, P>,
    pub(crate) sink: K,
}

impl<'l, L: Language, P: Past<Service, Entry> + Drop, K: Sink> Answering for Alone<'l, L, P, K> {
    ghost use Rattle.std.specs.Prelude.{◌≡◌, ◌≤◌};
    ghost use Rattle.document_serve.specs.Going.{IsAtRest};
    ghost use Rattle.message_input.specs.Counts.{CountsSo};
    ghost use Rattle.message_input.proofs.KnownHalting.{counts_later};
    ghost use Rattle.document_serve.specs.Runs.{GoesOn, IsEnded, StopsSo};
    ghost use Rattle.document_serve.specs.Joins.{goes_later, more_stops, short_of, stays, steady_first, steady_later, stops_later};

    ghost rests = { λ a. IsAtRest L.lang a.session };

    ghost goes = { λ a messages b. GoesOn L.lang (K.contents a.sink) (K.contents b.sink)
        a.session b.session messages × (K.faults a.sink ≤ K.faults b.sink) };

    ghost halts = { λ a first halt rest b. StopsSo L.lang halt (K.contents a.sink)
        (K.contents b.sink) a.session b.session first rest
        × CountsSo halt (K.faults a.sink) (K.faults b.sink) };

    ghost ends = { λ a b. IsEnded L.lang a.session b.session
        × (K.contents b.sink ≡ K.contents a.sink) × (K.faults b.sink ≡ K.faults a.sink) };

    fn answer(&mut self, message: Message) -> Result<(), Halt> {
        serve_message(
            self.alloc,
            self.lang,
            &mut self.session,
            &mut self.sink,
            &mut Nobody,
            message,
        )
    }

    fn end(&mut self) {
        self.session.end();
    }

    ghost stays = { λ a rests. (
      stays L.lang (K.contents a.sink) a.session rests,
      steady_first (K.faults a.sink),
    ) };

    ghost rests_then = { λ a b messages goes. goes.0.rests };

    ghost goes_on = { λ a b c first then one more. (
      goes_later L.lang (K.contents a.sink)
          (K.contents b.sink) (K.contents c.sink) a.session b.session c.session first one.0 then
          more.0,
      steady_later _ _ _ one.1 more.1,
    ) };

    ghost halts_later = { λ a b c first then rest halt one more. (
      stops_later L.lang
          (K.contents a.sink) (K.contents b.sink) (K.contents c.sink) a.session b.session c.session
          first one.0 halt then rest more.0,
      counts_later halt _ _ _ one.1 more.1,
    ) };

    ghost more_wait = { λ a b first rest more halt one. (
      more_stops L.lang halt
          (K.contents a.sink) (K.contents b.sink) a.session b.session first rest more one.0,
      one.1,
    ) };

    ghost short = { λ a rest rests. (
      short_of L.lang (K.contents a.sink) a.session rest rests,
      steady_first (K.faults a.sink),
    ) };
}
