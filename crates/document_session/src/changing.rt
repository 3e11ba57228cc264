//! Messages that change the document, updates aside.
ghost use Rattle.std.specs.Prelude.{◌≡◌, ℕ, false, IfOk, OnErr, Ok};
ghost use Rattle.core_rules.specs.Standing.{has_ended};
ghost use Rattle.message_values.specs.Asked.{asked};
ghost use Rattle.message_values.specs.declared.editor_message.EditorMessage.TheVariants as asks;
ghost use Rattle.session_rules.specs.Services.{mode_of};
ghost use Rattle.keeping_rules.specs.Items.{session_in};
ghost use Rattle.keeping_rules.specs.Legal.{AreLegal};
ghost use Rattle.keeping_rules.specs.session_replies_below.Spelling.{reply_spelling};
ghost use Rattle.keeping_rules.specs.session_replies_below.Cancelled.{cancelling_told};
ghost use Rattle.document_session.specs.Answers.{TakenSo};
ghost use Rattle.document_session.specs.Cancels.{AreRepliesTo};

use crate::answering::make_room;
use crate::session::Session;
use crate::taking::Taken;
use byte_message::Message;
use core_tables::{Cancelling, Removing};
use joined_results::each_of_three;
use keeping_rules::change_laws;
use keeping_rules::session_replies_below::{cancelling, removed_law, removed_versions};
use language::Language;
use message_values::{Protocol, Refusal};
use pide_base::{ExecId, VersionId};
use reply_outbox::Past;
use session_rules::{Entry, Service};
use sqlite_items::Items;
use std::alloc::{AllocError, Global};

impl<L: Language, P: Past<Service, Entry> + Drop> Session<L, P> {
    /// Cancels an execution of a live version.
    pub(crate) fn cancel(
        &mut self,
        alloc: Global,
        message: Message,
        exec: ExecId,
    ) -> Result<Taken, AllocError>
        requires going { has_ended (session_in L.lang self.old.service self.old.items).events
            ≡ false }
        requires read { asked (mode_of self.old.service) message
            ≡ Ok (asks.Cancel exec) }
        ensures service { self.new.service ≡ self.old.service }
        ensures taken { IfOk result (λ taken. TakenSo L.lang self.old.service message
            self.old.items taken self.new.items) }
        ensures err { OnErr result (self.new ≡ self.old) }
        ensures legal { AreLegal L.lang self.new.service self.new.items }
    {
        change_laws::<L>();
        make_room(&mut self.outbox, self.held, 1)?;
        let replies = CancelReplies::new(alloc, exec)?;
        let answer = self.core.cancel(exec);
        self.called = true;
        self.outbox
            .add(Entry::Call(message), Some(replies.reply(answer)));
        Ok(Taken::Replied)
    }

    /// Removes live versions, of which none is the tip.
    pub(crate) fn remove(
        &mut self,
        alloc: Global,
        message: Message,
        versions: Items<VersionId>,
    ) -> Result<Taken, AllocError>
        requires going { has_ended (session_in L.lang self.old.service self.old.items).events
            ≡ false }
        requires read { asked (mode_of self.old.service) message
            ≡ Ok (asks.RemoveVersions versions) }
        ensures service { self.new.service ≡ self.old.service }
        ensures taken { IfOk result (λ taken. TakenSo L.lang self.old.service message
            self.old.items taken self.new.items) }
        ensures err { OnErr result (self.new ≡ self.old) }
        ensures legal { AreLegal L.lang self.new.service self.new.items }
    {
        removed_law::<L>();
        change_laws::<L>();
        let Ok(()) = make_room(&mut self.outbox, self.held, 1) else {
            drop(message);
            drop(versions);
            return Err(AllocError);
        };
        let Ok(reply) = removed_versions(alloc, versions.as_slice()) else {
            drop(message);
            drop(versions);
            return Err(AllocError);
        };
        match self.core.remove(versions)? {
            Removing::Unknown(_) => {
                drop(reply);
                self.refuse(alloc, message, Refusal::UnknownVersion)
            }
            Removing::Tip => {
                drop(reply);
                self.refuse(alloc, message, Refusal::TipVersion)
            }
            Removing::Removed => {
                self.called = true;
                self.outbox.add(Entry::Call(message), Some(reply));
                Ok(Taken::Replied)
            }
        }
    }

    /// Sets the protocol, before any other message.
    pub(crate) fn set_protocol(
        &mut self,
        alloc: Global,
        message: Message,
        protocol: Protocol,
    ) -> Result<Taken, AllocError>
        requires going { has_ended (session_in L.lang self.old.service self.old.items).events
            ≡ false }
        requires read { asked (mode_of self.old.service) message
            ≡ Ok (asks.Protocol protocol) }
        ensures service { self.new.service ≡ self.old.service }
        ensures taken { IfOk result (λ taken. TakenSo L.lang self.old.service message
            self.old.items taken self.new.items) }
        ensures err { OnErr result (self.new ≡ self.old) }
        ensures legal { AreLegal L.lang self.new.service self.new.items }
    {
        change_laws::<L>();
        if self.called {
            return self.refuse(alloc, message, Refusal::ProtocolFixed);
        }
        make_room(&mut self.outbox, self.held, 1)?;
        let reply = keeping_rules::session_replies_below::protocol(alloc, protocol)?;
        self.protocol = protocol;
        self.called = true;
        self.outbox.add(Entry::Call(message), Some(reply));
        Ok(Taken::Replied)
    }
}

/// The replies to a cancellation, for each of its answers.
#[derive(Drop)]
pub(crate) struct CancelReplies {
    unknown: Vec<u8>,
    idle: Vec<u8>,
    cancelled: Vec<u8>,
}

impl CancelReplies {
    fn new(alloc: Global, exec: ExecId) -> Result<CancelReplies, AllocError>
        ensures { IfOk result (λ replies. AreRepliesTo exec replies) }
    {
        let (unknown, idle, cancelled) = each_of_three(
            cancelling(alloc, exec, Cancelling::Unknown),
            cancelling(alloc, exec, Cancelling::Idle),
            cancelling(alloc, exec, Cancelling::Cancelled),
        )?;
        Ok(CancelReplies {
            unknown,
            idle,
            cancelled,
        })
    }

    /// The reply to this answer. It takes no memory.
    fn reply(self, answer: Cancelling) -> Vec<u8>
        ensures { (exec : ℕ) → AreRepliesTo exec self
            → result.items ≡ reply_spelling (cancelling_told exec answer) }
    {
        match answer {
            Cancelling::Unknown => self.unknown,
            Cancelling::Idle => self.idle,
            Cancelling::Cancelled => self.cancelled,
        }
    }
}
