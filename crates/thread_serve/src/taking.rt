//! How the reader has a message answered.
ghost use Rattle.std.specs.Prelude.{◌≡◌, IfOk, OnErr};
ghost use Rattle.hist_lock.specs.Entries.{Grows};
ghost use Rattle.view_laws.specs.Histories.{IsLegalLog};
ghost use Rattle.thread_serve.specs.Ends.{IsGoing};
ghost use Rattle.thread_serve.specs.Room.{is_backed_up};
ghost use Rattle.thread_serve.specs.Working.{AnswersSo, MustWait, TakesSo};

use crate::locked::Locked;
use byte_message::Message;
use document_session::session_replies_below::SessionJob;
use document_session::{Claim, Taken};
use hist_lock::Turn;
use language::Language;
use reply_outbox::Past;
use session_rules::{Entry, Service};
use std::alloc::{AllocError, Global};
use view_laws::list_law;

/// What became of a message.
#[derive(Drop)]
pub enum Taking<S> {
    /// It is answered.
    Replied,
    /// The version that it waits for isn't settled, or too much waits for the writer: here it is
    /// back, and what the reader claimed.
    Waits { message: Message, claim: Claim<S> },
    /// The sink is lost, and the message is given up.
    Lost,
    /// There was not enough memory: nothing has changed, and the message is given up.
    NoMemory,
}

/// So many bytes of replies may wait where a message is taken.
const MOST_WAITING: u128 = 0x10_0000;

impl<L: Language, P: Past<Service, Entry> + Drop> Locked<L, P> {
    /// Whether more waits for the writer, which has begun to take replies.
    pub(crate) fn is_backed_up(&self) -> bool
        ensures { result ≡ is_backed_up self.now }
    {
        self.session.has_sent() && self.session.bytes_waiting() > MOST_WAITING
    }

    /// A message is answered, or handed back where it waits. For want of memory nothing has
    /// changed.
    fn answer(&mut self, alloc: Global, lang: &L, message: Message) -> Result<Taken, AllocError>
        requires going { IsGoing L.lang self.old.log }
        ensures taken { IfOk result (λ taken. AnswersSo L.lang message self.old.log taken
            self.new.log) }
        ensures err { OnErr result (self.new.log ≡ self.old.log) }
        ensures adds { Grows self.old.log self.new.log }
        ensures legal { IsLegalLog L.lang self.new.log }
    {
        list_law::<L>();
        self.session.take(alloc, lang, message)
    }

    /// A message is put off, and the reader claims the first ready part.
    fn put_off(&mut self, alloc: Global, lang: &L, message: Message) -> Taking<L::State>
        requires legal { IsLegalLog L.lang self.old.log }
        requires waits { MustWait L.lang message self.old }
        ensures takes { TakesSo L.lang message self.old result self.new.log }
        ensures adds { Grows self.old.log self.new.log }
        ensures legal { IsLegalLog L.lang self.new.log }
    {
        let claim = self.try_claim(alloc, lang, 0);
        Taking::Waits { message, claim }
    }

    /// A message is answered, where not too much waits for the writer; where it waits the reader
    /// claims the first ready part. All has not ended.
    fn take(&mut self, alloc: Global, lang: &L, message: Message) -> Taking<L::State>
        requires legal { IsLegalLog L.lang self.old.log }
        requires going { IsGoing L.lang self.old.log }
        ensures takes { TakesSo L.lang message self.old result self.new.log }
        ensures adds { Grows self.old.log self.new.log }
        ensures legal { IsLegalLog L.lang self.new.log }
    {
        if self.is_lost() {
            drop(message);
            return Taking::Lost;
        }
        if self.is_backed_up() {
            return self.put_off(alloc, lang, message);
        }
        match self.answer(alloc, lang, message) {
            Err(_) => Taking::NoMemory,
            Ok(Taken::Replied) => Taking::Replied,
            Ok(Taken::Waits(message)) => self.put_off(alloc, lang, message),
        }
    }
}

/// The reader has a message answered, and claims a part where it waits. All has not ended.
#[derive(Drop)]
pub struct TakeTurn<'a, L> {
    pub alloc: Global,
    pub lang: &'a L,
    pub message: Message,
}

impl<'a, L: Language, P: Past<Service, Entry> + Drop> Turn<Locked<L, P>> for TakeTurn<'a, L> {
    type Answer = Taking<L::State>;

    ghost asks = { λ call old. IsGoing L.lang old.log };

    ghost gives = { λ call old answer new. TakesSo L.lang call.message old answer new.log };

    fn run(self, state: &mut Locked<L, P>) -> Taking<L::State> {
        let TakeTurn {
            alloc,
            lang,
            message,
        } = self;
        let taking = state.take(alloc, lang, message);
        state.note_message(matches!(taking, Taking::Replied));
        state.note_claim(claimed(&taking));
        taking
    }
}

/// The job that the reader claimed, if it claimed one.
fn claimed<S>(taking: &Taking<S>) -> Option<&SessionJob<S>> {
    match taking {
        Taking::Waits {
            claim: Claim::Job { job, .. },
            ..
        } => Some(job),
        _ => None,
    }
}
