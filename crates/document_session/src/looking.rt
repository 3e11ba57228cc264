//! Messages that only look.
ghost use Rattle.std.specs.Prelude.{◌≡◌, ◌∷◌, false, map, IfOk, OnOk, OnErr, Ok};
ghost use Rattle.core_rules.specs.Standing.{has_ended};
ghost use Rattle.message_values.specs.Asked.{asked};
ghost use Rattle.message_values.specs.declared.editor_message.EditorMessage.TheVariants as asks;
ghost use Rattle.reply_messages.specs.Forms.{IsRising};
ghost use Rattle.reply_messages.specs.declared.told.Told.TheVariants as tells;
ghost use Rattle.core_jobs.specs.Parts.{told_part};
ghost use Rattle.reply_outbox.specs.declared.item.Item.TheVariants.{Made};
ghost use Rattle.session_rules.specs.declared.entry.Entry.TheVariants as entry;
ghost use Rattle.session_rules.specs.Services.{mode_of, is_held_by_script};
ghost use Rattle.session_rules.specs.Replies.{is_outdated};
ghost use Rattle.keeping_rules.specs.Items.{session_in};
ghost use Rattle.keeping_rules.specs.Legal.{AreLegal};
ghost use Rattle.keeping_rules.specs.session_replies_below.Spelling.{reply_spelling};
ghost use Rattle.keeping_rules.specs.session_replies_below.Marked.{marked, AreMovable};
ghost use Rattle.document_session.specs.Answers.{TakenSo};
ghost use Rattle.keeping_rules.specs.Looks.{IsLook};
ghost use Rattle.document_session.specs.Looks.{IsSeen, FoundSo, LookedSo, SettlesSo};

use crate::answering::make_room;
use crate::session::Session;
use crate::taking::Taken;
use byte_message::Message;
use core_jobs::NodeResults;
use editor_buffer::PrepareError;
use keeping_rules::session_replies_below::{
    edited_text, markup, settled, settled_law, snapshot_law,
};
use keeping_rules::{history_law, look_laws};
use language::Language;
use message_values::{Protocol, Refusal};
use pide_base::{NodeName, VersionId};
use prover_core::Settled;
use reply_outbox::Past;
use session_rules::{Entry, Service};
use std::alloc::{AllocError, Global};
use text_edits::Edit;

/// What is answered to a settle.
#[derive(Drop)]
pub(crate) enum Settling {
    /// Its version isn't settled.
    Waits,
    Refused(Refusal),
    /// The reply.
    Told(Vec<u8>),
}

impl<L: Language, P: Past<Service, Entry> + Drop> Session<L, P> {
    /// Tells what is known of a node, in the text that the edits make of the version's.
    pub(crate) fn snapshot(
        &mut self,
        alloc: Global,
        message: Message,
        version: VersionId,
        node: &NodeName,
        edits: &[Edit],
    ) -> Result<Taken, AllocError>
        requires going { has_ended (session_in L.lang self.old.service self.old.items).events
            ≡ false }
        requires read { asked (mode_of self.old.service) message
            ≡ Ok (asks.Snapshot version node.now edits.now) }
        ensures service { self.new.service ≡ self.old.service }
        ensures taken { IfOk result (λ taken. TakenSo L.lang self.old.service message
            self.old.items taken self.new.items) }
        ensures err { OnErr result (self.new ≡ self.old) }
        ensures legal { AreLegal L.lang self.new.service self.new.items }
    {
        match self.shown(alloc, version, node, edits) {
            Err(PrepareError::NoMemory) => {
                drop(message);
                Err(AllocError)
            }
            Err(PrepareError::Refused(reason)) => self.refuse(alloc, message, reason),
            Ok(reply) => self.tell(message, reply),
        }
    }

    /// The reply to a snapshot.
    fn shown(
        &self,
        alloc: Global,
        version: VersionId,
        node: &NodeName,
        edits: &[Edit],
    ) -> Result<Vec<u8>, PrepareError>
        ensures looked { LookedSo L.lang self.now.service (session_in L.lang self.now.service
            self.now.items) (asks.Snapshot version node.now edits.now)
            (λ reply. reply.items) result }
        ensures legal { AreLegal L.lang self.now.service self.now.items }
    {
        match self.text_of(version, node) {
            Err(reason) => Err(PrepareError::Refused(reason)),
            Ok(text) => {
                let text = edited_text(alloc, text, edits)?;
                let reply = self.marked(alloc, version, node, text.scalars(), edits)?;
                Ok(reply)
            }
        }
    }

    /// The text of a live version's node.
    fn text_of(&self, version: VersionId, node: &NodeName) -> Result<&[char], Refusal>
        ensures found { FoundSo L.lang self.now.service (session_in L.lang self.now.service
            self.now.items) version node.now (λ text. text.now) result }
        ensures legal { AreLegal L.lang self.now.service self.now.items }
    {
        let Some(live) = self.core.version(version) else {
            return Err(Refusal::UnknownVersion);
        };
        match live.nodes.get(node) {
            Some(found) => Ok(found.text.get().as_slice()),
            None => Err(Refusal::UnknownNode),
        }
    }

    /// The reply to a snapshot of a node that is found. `text` is its text behind the edits.
    fn marked(
        &self,
        alloc: Global,
        version: VersionId,
        node: &NodeName,
        text: &[char],
        edits: &[Edit],
    ) -> Result<Vec<u8>, AllocError>
        requires seen { IsSeen L.lang (session_in L.lang self.now.service self.now.items) version
            node.now edits.now text.now }
        ensures { IfOk result (λ reply. IsLook L.lang self.now.service
            (session_in L.lang self.now.service self.now.items)
            (Ok (asks.Snapshot version node.now edits.now)) reply.items) }
    {
        snapshot_law::<L>();
        history_law::<L>();
        let Some(results) = self.core.results(version, node)? else {
            unreachable!()
        };
        markup_of(alloc, self.protocol, version, node, text, edits, results)
    }

    /// Tells what of a version will never be finished, once all else is.
    pub(crate) fn settle(
        &mut self,
        alloc: Global,
        message: Message,
        version: VersionId,
    ) -> Result<Taken, AllocError>
        requires going { has_ended (session_in L.lang self.old.service self.old.items).events
            ≡ false }
        requires read { asked (mode_of self.old.service) message
            ≡ Ok (asks.Settle version) }
        ensures service { self.new.service ≡ self.old.service }
        ensures taken { IfOk result (λ taken. TakenSo L.lang self.old.service message
            self.old.items taken self.new.items) }
        ensures err { OnErr result (self.new ≡ self.old) }
        ensures legal { AreLegal L.lang self.new.service self.new.items }
    {
        match self.settling(alloc, version)? {
            Settling::Waits => Ok(Taken::Waits(message)),
            Settling::Refused(reason) => self.refuse(alloc, message, reason),
            Settling::Told(reply) => self.tell(message, reply),
        }
    }

    /// What is answered to a settle.
    fn settling(&self, alloc: Global, version: VersionId) -> Result<Settling, AllocError>
        ensures settles { IfOk result (λ settling. SettlesSo L.lang self.now.service
            (session_in L.lang self.now.service self.now.items) version settling) }
        ensures legal { AreLegal L.lang self.now.service self.now.items }
    {
        settled_law::<L>();
        match self.core.settled(version)? {
            Settled::Unknown => Ok(Settling::Refused(Refusal::UnknownVersion)),
            _ if self.is_held_by_script() => Ok(Settling::Refused(Refusal::StepHeld)),
            Settled::Left(_) => Ok(Settling::Waits),
            Settled::Settled(stuck) => Ok(Settling::Told(settled(alloc, version, &stuck)?)),
        }
    }

    /// A worker whom messages name holds a part.
    fn is_held_by_script(&self) -> bool
        ensures { result ≡ is_held_by_script self.now.service
            (session_in L.lang self.now.service self.now.items).events }
    {
        !self.jobs.is_empty()
    }

    /// Takes note of a message that only looks, and that was answered elsewhere with this reply,
    /// which must be the session's own: the list is as if it were answered here. For want of memory
    /// nothing has changed, and both are lost.
    pub fn noted(&mut self, message: Message, reply: Vec<u8>) -> Result<(), AllocError>
        requires going { has_ended (session_in L.lang self.old.service self.old.items).events
            ≡ false }
        requires told { IsLook L.lang self.old.service
            (session_in L.lang self.old.service self.old.items)
            (asked (mode_of self.old.service) message) reply.items }
        ensures service { self.new.service ≡ self.old.service }
        ensures items { OnOk result (self.new.items ≡ Made (entry.Call message) ∷ self.old.items) }
        ensures err { OnErr result (self.new ≡ self.old) }
        ensures legal { AreLegal L.lang self.new.service self.new.items }
    {
        look_laws::<L>();
        make_room(&mut self.outbox, self.held, 1)?;
        self.called = true;
        self.outbox.add(Entry::Call(message), Some(reply));
        Ok(())
    }

    /// Adds a message that only looks, with its reply.
    fn tell(&mut self, message: Message, reply: Vec<u8>) -> Result<Taken, AllocError>
        requires going { has_ended (session_in L.lang self.old.service self.old.items).events
            ≡ false }
        requires told { IsLook L.lang self.old.service
            (session_in L.lang self.old.service self.old.items)
            (asked (mode_of self.old.service) message) reply.items }
        ensures service { self.new.service ≡ self.old.service }
        ensures taken { IfOk result (λ taken. TakenSo L.lang self.old.service message
            self.old.items taken self.new.items) }
        ensures err { OnErr result (self.new ≡ self.old) }
        ensures legal { AreLegal L.lang self.new.service self.new.items }
    {
        self.noted(message, reply)?;
        Ok(Taken::Replied)
    }
}

/// The reply to a snapshot of a version's node, from what came of its parts so far.
fn markup_of<'a>(
    alloc: Global,
    protocol: Protocol,
    version: VersionId,
    node: &'a NodeName,
    text: &[char],
    edits: &[Edit],
    results: NodeResults<'a>,
) -> Result<Vec<u8>, AllocError>
    requires movable { AreMovable edits.now (map told_part results.parts.items) }
    requires rising { IsRising results.pending.items }
    ensures { IfOk result (λ bytes. bytes.items ≡ reply_spelling (tells.Markup version node.now
        (marked protocol text.now edits.now (map told_part results.entry.parts.items))
        results.entry.pending.items (is_outdated edits.now))) }
{
    markup(alloc, protocol, version, node, text, edits, &results)
}
