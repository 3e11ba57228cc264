//! Updates.
ghost use Rattle.std.specs.Prelude.{◌≡◌, ◌+◌, ◌<◌, ◌≤◌, false, IfOk, OnErr, Ok, Err};
ghost use Rattle.pide_base.specs.Ids.{id_end};
ghost use Rattle.exec_assign.specs.declared.fault.AssignFault.TheVariants.{Limit};
ghost use Rattle.exec_assign.specs.Untouched.{AreChanged};
ghost use Rattle.update_plans.specs.Alive.{HaveCommands};
ghost use Rattle.core_rules.specs.Standing.{has_ended};
ghost use Rattle.core_rules.specs.Doc.{doc, assignment_of};
ghost use Rattle.core_rules.specs.Updates.{FitsUpdate};
ghost use Rattle.prover_core.specs.Plans.{IsPlanOf, HasRoom};
ghost use Rattle.reply_messages.specs.declared.told.Told.TheVariants as tells;
ghost use Rattle.keeping_rules.specs.session_replies_below.Spelling.{reply_spelling};
ghost use Rattle.keeping_rules.specs.session_replies_below.Assigned.{nodes_told};
ghost use Rattle.message_values.specs.Asked.{asked};
ghost use Rattle.message_values.specs.declared.editor_message.EditorMessage.TheVariants as asks;
ghost use Rattle.session_rules.specs.Services.{mode_of};
ghost use Rattle.keeping_rules.specs.Items.{session_in};
ghost use Rattle.keeping_rules.specs.Legal.{AreLegal};
ghost use Rattle.document_session.specs.Answers.{TakenSo};
ghost use Rattle.document_session.specs.Makes.{IsMade};

use crate::answering::make_room;
use crate::session::Session;
use crate::taking::Taken;
use buffer_laws::fits_law;
use byte_message::Message;
use editor_buffer::{PrepareError, Prepared};
use exec_assign::AssignFault;
use keeping_rules::session_replies_below::assign;
use keeping_rules::{history_law, update_law};
use language::Language;
use message_values::{BlobChange, Item as UpdateItem, Refusal};
use pide_base::VersionId;
use prover_core::{Core, Plan};
use reply_outbox::{Outbox, Past};
use session_rules::{Entry, Service};
use std::alloc::{AllocError, Global};

impl<L: Language, P: Past<Service, Entry> + Drop> Session<L, P> {
    /// Makes a version.
    pub(crate) fn update(
        &mut self,
        alloc: Global,
        message: Message,
        version: VersionId,
        items: &[UpdateItem],
        blobs: &[BlobChange],
    ) -> Result<Taken, AllocError>
        requires going { has_ended (session_in L.lang self.old.service self.old.items).events
            ≡ false }
        requires read { asked (mode_of self.old.service) message
            ≡ Ok (asks.Update version items.now blobs.now) }
        ensures service { self.new.service ≡ self.old.service }
        ensures taken { IfOk result (λ taken. TakenSo L.lang self.old.service message
            self.old.items taken self.new.items) }
        ensures err { OnErr result (self.new ≡ self.old) }
        ensures legal { AreLegal L.lang self.new.service self.new.items }
    {
        if version.number() <= self.last {
            return self.refuse(alloc, message, Refusal::VersionNotHigher);
        }
        let live = self.core.live().len();
        match self.buffer.prepare(alloc, live, items, blobs) {
            Err(PrepareError::NoMemory) => {
                drop(message);
                Err(AllocError)
            }
            Err(PrepareError::Refused(reason)) => self.refuse(alloc, message, reason),
            Ok(made) => self.make(alloc, message, version, made),
        }
    }

    /// Makes the version that was prepared, unless executions run out of ids.
    fn make(
        &mut self,
        alloc: Global,
        message: Message,
        version: VersionId,
        made: Prepared,
    ) -> Result<Taken, AllocError>
        requires going { has_ended (session_in L.lang self.old.service self.old.items).events
            ≡ false }
        requires made { IsMade L.lang (session_in L.lang self.old.service self.old.items) version
            (asked (mode_of self.old.service) message) made }
        ensures service { self.new.service ≡ self.old.service }
        ensures taken { IfOk result (λ taken. TakenSo L.lang self.old.service message
            self.old.items taken self.new.items) }
        ensures err { OnErr result (self.new ≡ self.old) }
        ensures legal { AreLegal L.lang self.new.service self.new.items }
    {
        fits_law();
        history_law::<L>();
        update_law::<L>();
        match plan_prepared(
            alloc,
            &mut self.outbox,
            &mut self.core,
            self.held,
            version,
            &made,
        ) {
            Err(AssignFault::NoMemory) => {
                drop(made);
                drop(message);
                Err(AllocError)
            }
            Err(AssignFault::Limit) => {
                drop(made);
                self.refuse(alloc, message, Refusal::Limit)
            }
            Ok((plan, reply)) => {
                self.core.update(plan);
                self.buffer.commit(made);
                self.last = version.number();
                self.called = true;
                self.outbox.add(Entry::Call(message), Some(reply));
                Ok(Taken::Replied)
            }
        }
    }
}

/// The plan of a version that was prepared, once there is room for one entry more, and the reply
/// when it is made.
fn plan_prepared<L: Language, P: Past<Service, Entry> + Drop>(
    alloc: Global,
    outbox: &mut Outbox<Service, Entry, P>,
    core: &mut Core<L>,
    held: usize,
    version: VersionId,
    made: &Prepared,
) -> Result<(Plan, Vec<u8>), AssignFault>
    requires going { has_ended core.old.past ≡ false }
    requires fits { (assignment_of (doc L.lang core.old.past) made.now.after.nodes
        made.now.after.document.blobs).next ≤ id_end → FitsUpdate (doc L.lang core.old.past) version
        made.now.after.nodes made.now.after.document.blobs }
    requires changed { AreChanged made.now.changed (doc L.lang core.old.past).tip.blobs
        made.now.after.document.blobs }
    requires commands { HaveCommands (doc L.lang core.old.past).tip made.now.after.nodes
        made.now.untouched }
    ensures items { outbox.new.items ≡ outbox.old.items }
    ensures waiting { outbox.new.waiting ≡ outbox.old.waiting }
    ensures free { outbox.old.free ≤ outbox.new.free }
    ensures entry { IfOk result (λ both. held + 1 + 1 ≤ outbox.new.free) }
    ensures past { core.new.past ≡ core.old.past }
    ensures version { IfOk result (λ both. both.0.version ≡ version) }
    ensures nodes { IfOk result (λ both. both.0.nodes ≡ made.now.after.nodes) }
    ensures blobs { IfOk result (λ both. both.0.blobs ≡ made.now.after.document.blobs) }
    ensures plan { IfOk result (λ both. IsPlanOf L.lang core.new.past both.0) }
    ensures room { IfOk result (λ both. HasRoom core.new.room both.0) }
    ensures reply { IfOk result (λ both. both.1.items
        ≡ reply_spelling (tells.Assign version (nodes_told both.0.told))) }
    ensures limit { result ≡ Err Limit → id_end < (assignment_of (doc L.lang core.old.past)
        made.now.after.nodes made.now.after.document.blobs).next }
{
    make_room(outbox, held, 1)?;
    let plan = core.plan(
        alloc,
        version,
        made.nodes(),
        made.blobs(),
        made.changed(),
        made.untouched(),
    )?;
    match assign(alloc, version, plan.assigned()) {
        Ok(reply) => Ok((plan, reply)),
        Err(_) => {
            drop(plan);
            Err(AssignFault::NoMemory)
        }
    }
}
