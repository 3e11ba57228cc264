//! Replies that change nothing, and room for what is owed.
ghost use Rattle.std.specs.Prelude.{◌≡◌, ◌+◌, ◌^◌, ◌<◌, ◌≤◌, false, IfOk, OnOk, OnErr, Err};
ghost use Rattle.core_rules.specs.Standing.{has_ended};
ghost use Rattle.message_values.specs.Asked.{asked};
ghost use Rattle.session_rules.specs.Services.{mode_of};
ghost use Rattle.session_rules.specs.Accepting.{taken};
ghost use Rattle.keeping_rules.specs.Items.{session_in};
ghost use Rattle.keeping_rules.specs.Legal.{AreLegal};
ghost use Rattle.document_session.specs.Answers.{TakenSo};

use crate::session::Session;
use crate::taking::Taken;
use byte_message::Message;
use keeping_rules::look_laws;
use keeping_rules::session_replies_below::refused;
use language::Language;
use message_values::Refusal;
use reply_outbox::{Outbox, Past};
use session_rules::{Entry, Service};
use std::alloc::{AllocError, Global};

impl<L: Language, P: Past<Service, Entry> + Drop> Session<L, P> {
    /// Refuses a message for a reason, which must be the session's own. For want of memory nothing
    /// has changed, and the message is lost.
    pub fn refuse(
        &mut self,
        alloc: Global,
        message: Message,
        reason: Refusal,
    ) -> Result<Taken, AllocError>
        requires going { has_ended (session_in L.lang self.old.service self.old.items).events
            ≡ false }
        requires refused { taken L.lang self.old.service
            (session_in L.lang self.old.service self.old.items)
            (asked (mode_of self.old.service) message) ≡ Err reason }
        ensures service { self.new.service ≡ self.old.service }
        ensures taken { IfOk result (λ taken. TakenSo L.lang self.old.service message
            self.old.items taken self.new.items) }
        ensures err { OnErr result (self.new ≡ self.old) }
        ensures legal { AreLegal L.lang self.new.service self.new.items }
    {
        look_laws::<L>();
        make_room(&mut self.outbox, self.held, 1)?;
        let reply = refused(alloc, reason)?;
        self.called = true;
        self.outbox.add(Entry::Call(message), Some(reply));
        Ok(Taken::Replied)
    }
}

/// Makes room for so many entries, beside the end and those by which parts that are held are
/// finished or let go.
pub(crate) fn make_room<P: Past<Service, Entry> + Drop>(
    outbox: &mut Outbox<Service, Entry, P>,
    held: usize,
    entries: usize,
) -> Result<(), AllocError>
    ensures items { outbox.new.items ≡ outbox.old.items }
    ensures waiting { outbox.new.waiting ≡ outbox.old.waiting }
    ensures free { outbox.old.free ≤ outbox.new.free }
    ensures ok { OnOk result (held + 1 + entries ≤ outbox.new.free) }
    ensures fits { OnOk result (held + 1 + entries < 2 ^ 64) }
{
    let Some(owed) = held.checked_add(1) else {
        return Err(AllocError);
    };
    match owed.checked_add(entries) {
        Some(all) => outbox.reserve(all),
        None => Err(AllocError),
    }
}
