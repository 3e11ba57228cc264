//! The messages of a build are answered.
ghost use Rattle.std.specs.Prelude.{◌≡◌, ◌∷◌, [], OnOk, IfErr};
ghost use Rattle.pide_build.specs.Answers.{GoesOn, Stops};

use crate::replies::push_reply;
use crate::theories::{Taken, Theories, take};
use byte_message::Message;
use message_input::{Answering, Halt};
use pide_base::Sink;
use reply_messages::Reply;
use std::alloc::Global;

/// Keeps the theories that messages bring, and writes why others are refused.
#[derive(Drop)]
pub(crate) struct Inbox<K> {
    pub(crate) alloc: Global,
    pub(crate) theories: Theories,
    pub(crate) sink: K,
}

/// Answers a message.
fn answer_one<K: Sink>(inbox: &mut Inbox<K>, message: &Message) -> Result<(), Halt>
    ensures ok { OnOk result (GoesOn (K.contents inbox.old.sink) (K.contents inbox.new.sink)
        (K.faults inbox.old.sink) (K.faults inbox.new.sink) inbox.old.theories inbox.new.theories
        (message.now ∷ [])) }
    ensures err { IfErr result (λ halt. Stops (K.contents inbox.old.sink)
        (K.contents inbox.new.sink) (K.faults inbox.old.sink) (K.faults inbox.new.sink)
        inbox.old.theories (message.now ∷ []) halt) }
{
    match take(inbox.alloc, &mut inbox.theories, message)? {
        Taken::Kept => Ok(()),
        Taken::Refused(reason) => {
            push_reply(inbox.alloc, &mut inbox.sink, &Reply::Refused { reason })
        }
    }
}

impl<K: Sink> Answering for Inbox<K> {
    ghost use Rattle.std.specs.Prelude.{◌≡◌, ⊤};
    ghost use Rattle.pide_build.specs.Answers.{GoesOn, Stops};
    ghost use Rattle.pide_build.specs.Joins.{goes_later, none_yet, short_of, stops_later};

    ghost rests = { λ a. ⊤ };

    ghost goes = { λ a messages b. GoesOn (K.contents a.sink) (K.contents b.sink)
        (K.faults a.sink) (K.faults b.sink) a.theories b.theories messages };

    ghost halts = { λ a first halt rest b. Stops (K.contents a.sink) (K.contents b.sink)
        (K.faults a.sink) (K.faults b.sink) a.theories first halt };

    ghost ends = { λ a b. b ≡ a };

    fn answer(&mut self, message: Message) -> Result<(), Halt> {
        answer_one(self, &message)
    }

    fn end(&mut self) {}

    ghost stays = { λ a rests. none_yet (K.contents a.sink) (K.faults a.sink) a.theories };

    ghost rests_then = { λ a b messages goes. tt };

    ghost goes_on = { λ a b c first then one more. goes_later (K.contents a.sink)
        (K.contents b.sink) (K.contents c.sink) (K.faults a.sink) (K.faults b.sink)
        (K.faults c.sink) a.theories b.theories c.theories first then one more };

    ghost halts_later = { λ a b c first then rest halt one more. stops_later (K.contents a.sink)
        (K.contents b.sink) (K.contents c.sink) (K.faults a.sink) (K.faults b.sink)
        (K.faults c.sink) a.theories b.theories first then halt one more };

    ghost more_wait = { λ a b first rest more halt one. one };

    ghost short = { λ a rest rests. short_of (K.contents a.sink) (K.faults a.sink) a.theories };
}
