//! Messages.
ghost use Rattle.std.specs.Prelude.{◌≡◌, false, IfOk, OnErr, Ok};
ghost use Rattle.core_rules.specs.Standing.{has_ended};
ghost use Rattle.message_values.specs.Asked.{asked};
ghost use Rattle.session_rules.specs.Services.{mode_of};
ghost use Rattle.keeping_rules.specs.Items.{session_in};
ghost use Rattle.keeping_rules.specs.Legal.{AreLegal};
ghost use Rattle.document_session.specs.Answers.{TakenSo};

use crate::session::Session;
use byte_message::Message;
use language::Language;
use message_values::{EditorMessage, Mode, Refusal};
use pide_messages::{ReadError, read};
use reply_outbox::Past;
use session_rules::{Entry, Service};
use std::alloc::{AllocError, Global};

/// What became of a message.
#[derive(Debug, Drop)]
pub enum Taken {
    /// It is answered.
    Replied,
    /// The version that it waits for isn't settled: here it is back.
    Waits(Message),
}

impl<L: Language, P: Past<Service, Entry> + Drop> Session<L, P> {
    /// Answers a message: one that is refused changes nothing but that a message came. A settle is
    /// handed back while its version isn't settled; a message that tells a worker to take or end a
    /// part has that done at once. For want of memory nothing has changed, and the message is lost.
    pub fn take(&mut self, alloc: Global, lang: &L, message: Message) -> Result<Taken, AllocError>
        requires going { has_ended (session_in L.lang self.old.service self.old.items).events
            ≡ false }
        ensures service { self.new.service ≡ self.old.service }
        ensures taken { IfOk result (λ taken. TakenSo L.lang self.old.service message
            self.old.items taken self.new.items) }
        ensures err { OnErr result (self.new ≡ self.old) }
        ensures legal { AreLegal L.lang self.new.service self.new.items }
    {
        match read(alloc, &message, mode_of(self.service)) {
            Err(ReadError::NoMemory) => {
                drop(message);
                Err(AllocError)
            }
            Err(ReadError::Refused(reason)) => self.refuse(alloc, message, reason),
            Ok(request) => self.answer(alloc, lang, message, request),
        }
    }

    /// Answers what a message asks.
    fn answer(
        &mut self,
        alloc: Global,
        lang: &L,
        message: Message,
        request: EditorMessage,
    ) -> Result<Taken, AllocError>
        requires going { has_ended (session_in L.lang self.old.service self.old.items).events
            ≡ false }
        requires read { asked (mode_of self.old.service) message ≡ Ok request }
        ensures service { self.new.service ≡ self.old.service }
        ensures taken { IfOk result (λ taken. TakenSo L.lang self.old.service message
            self.old.items taken self.new.items) }
        ensures err { OnErr result (self.new ≡ self.old) }
        ensures legal { AreLegal L.lang self.new.service self.new.items }
    {
        match request {
            EditorMessage::Update {
                version,
                items,
                blobs,
            } => {
                let taken = self.update(
                    alloc,
                    message,
                    version,
                    items.as_slice(),
                    blobs.as_slice(),
                );
                drop(items);
                drop(blobs);
                taken
            }
            EditorMessage::Snapshot {
                version,
                node,
                edits,
            } => {
                let taken = self.snapshot(alloc, message, version, &node, edits.as_slice());
                drop(node);
                drop(edits);
                taken
            }
            EditorMessage::Cancel { exec } => self.cancel(alloc, message, exec),
            EditorMessage::RemoveVersions { versions } => self.remove(alloc, message, versions),
            EditorMessage::Settle { version } => self.settle(alloc, message, version),
            EditorMessage::Protocol { protocol } => self.set_protocol(alloc, message, protocol),
            EditorMessage::Claim { worker } => self.step_claim(alloc, lang, message, worker),
            EditorMessage::Finish { worker } => self.step_finish(alloc, lang, message, worker),
            EditorMessage::Theory { node, text } => {
                drop(node);
                drop(text);
                self.refuse(alloc, message, Refusal::UnknownFunction)
            }
        }
    }
}

/// The functions that the editor has.
fn mode_of(service: Service) -> Mode
    ensures { result ≡ mode_of service }
{
    match service {
        Service::Workers { .. } => Mode::Serve,
        Service::Script => Mode::Replay,
    }
}
