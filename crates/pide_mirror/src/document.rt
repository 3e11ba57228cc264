//! What an editor knows of its document.
ghost use Rattle.std.specs.Prelude.{◌≡◌, ◌==◌, ℕ, List, find, true, false, not, ◌||◌, Ok, IfOk, OnErr, MatchOption};
ghost use Rattle.std.specs.List.{list_any};
ghost use Rattle.std.specs.Option.{option_copied, option_map};
ghost use Rattle.core_tables.specs.Removal.{left};
ghost use Rattle.core_tables.specs.declared.versions.Removing.TheVariants as answer;
ghost use Rattle.message_values.specs.declared.editor_message.EditorMessage.TheVariants as asks;
ghost use Rattle.message_values.specs.declared.item.Item.{Item};
ghost use Rattle.message_values.specs.declared.item.BlobChange.{BlobChange};
ghost use Rattle.buffer_rules.specs.Updates.{Asked};
ghost use Rattle.mirror_rules.specs.Answers.{can_answer, is_answer};
ghost use Rattle.mirror_rules.specs.Images.{Image, Mirror, empty_mirror};
ghost use Rattle.mirror_rules.specs.Replies.{after_answer, after_report};
ghost use Rattle.mirror_rules.specs.Reports.{belongs_in};
ghost use Rattle.mirror_rules.specs.Unexpected.{is_refused, lists_unknown};
ghost use Rattle.mirror_rules.specs.Updates.{buffer_after, image_after, with_tip};
ghost use Rattle.pide_mirror.specs.Kept.{IsKept};
ghost use Rattle.pide_mirror.specs.Knowing.{IsDocument, part_report, asked_of, AssignsSo, FitsUpdate, is_wrong};

use crate::known::{Known, LiveVersion, ToldLive, ToldVersion, told_to_all};
use crate::making::renewed;
use crate::note::Read;
use crate::told_part::ToldPart;
use buffer_laws::{known_law, names_law, numbers_law};
use editor_buffer::{Buffer, PrepareError, Prepared};
use message_values::{BlobChange, EditorMessage, Item, Protocol};
use pide_base::{Part, VersionId};
use reply_messages::{NodeRows, Told};
use report_markup::Report;
use sqlite_items::Items;
use std::alloc::{AllocError, Global};
use std::mem::replace;

/// The editor's own document; the live versions, oldest first; the tip; the greatest version so
/// far; and what places of reports count.
#[derive(Drop)]
pub struct Document {
    pub(crate) buffer: Buffer,
    pub(crate) live: Vec<LiveVersion>,
    pub(crate) tip: Known,
    pub(crate) last: u64,
    pub(crate) protocol: Protocol,
}

impl Document {
    /// Before any update.
    pub(crate) fn new(alloc: Global) -> Result<Document, AllocError>
        ensures { IfOk result (λ document. IsDocument document empty_mirror) }
    {
        Ok(Document {
            buffer: Buffer::new(),
            live: Vec::new(alloc),
            tip: Known::new(alloc)?,
            last: 0,
            protocol: Protocol::Scalars,
        })
    }

    /// What is known of the live version of this number, if there is one.
    pub(crate) fn known(&self, id: VersionId) -> Option<&Known>
        ensures { option_copied result
            ≡ option_map (λ one. one.known) (find (λ one. one.id == id) self.now.live.items) }
    {
        match self.live.iter().find(|one| one.id == id) {
            Some(one) => Some(&one.known),
            None => None,
        }
    }

    /// Takes what is told of a part that is finished, and answers whether a live version has a
    /// command to which it belongs. At want of memory nothing has changed.
    pub(crate) fn report(
        &mut self,
        alloc: Global,
        part: Part,
        reports: Items<Report>,
    ) -> Result<bool, AllocError>
        ensures taken { IfOk result (λ taken. (m : Mirror) → IsDocument self.old m → taken ≡ list_any
            (λ one. belongs_in (part_report m part reports) one.version) m.live) }
        ensures known { IfOk result (λ taken. (m : Mirror) → IsDocument self.old m → taken ≡ true
            → IsDocument self.new (after_report m part reports)) }
        ensures err { OnErr result ((m : Mirror) → IsDocument self.old m → IsDocument self.new m) }
    {
        let told = ToldPart::new(alloc, self.protocol, part, reports)?;
        let ToldLive { live, taken } = told_to_all(alloc, &self.live, &told)?;
        if !taken {
            drop(live);
            return Ok(false);
        }
        match self.tip.told(alloc, &told) {
            Ok(ToldVersion { known, .. }) => {
                drop(replace(&mut self.live, live));
                drop(replace(&mut self.tip, known));
                Ok(true)
            }
            Err(error) => {
                drop(live);
                Err(error)
            }
        }
    }

    /// Takes the reply to a message, and answers whether it is one. At want of memory nothing is
    /// known that wasn't.
    pub(crate) fn answer(
        &mut self,
        alloc: Global,
        read: &Read,
        told: Told,
    ) -> Result<bool, AllocError>
        requires answer { is_answer told ≡ true }
        requires kind { can_answer read.now told ≡ true }
        ensures expected { IfOk result (λ expected. (m : Mirror) → IsDocument self.old m
            → expected ≡ not (is_wrong m read.now told)) }
        ensures known { IfOk result (λ expected. (m : Mirror) → IsDocument self.old m
            → expected ≡ true → IsDocument self.new (after_answer m read.now told)) }
        ensures err { OnErr result ((m : Mirror) → IsDocument self.old m → IsDocument self.new m) }
    {
        match told {
            Told::Assign { nodes, .. } => self.assign_to(alloc, read, nodes),
            Told::Removed { versions } => {
                self.remove(versions.as_slice());
                Ok(true)
            }
            Told::Protocol { protocol } => {
                self.protocol = protocol;
                Ok(true)
            }
            told => {
                drop(told);
                Ok(true)
            }
        }
    }

    /// Forgets versions; where nobody else knows what they hold it is freed.
    fn remove(&mut self, ids: &[VersionId])
        ensures { (m : Mirror) → IsDocument self.old m
            → IsDocument self.new (record m { live = left answer.Removed ids.now m.live }) }
    {
        self.live.retain(|one| !ids.contains(&one.id));
    }

    /// Makes the version of a message that updates, with the rows that it is assigned.
    fn assign_to(
        &mut self,
        alloc: Global,
        read: &Read,
        listed: Items<NodeRows>,
    ) -> Result<bool, AllocError>
        ensures ok { IfOk result (λ expected. (m : Mirror) (id : ℕ) (items : List Item)
            (blobs : List BlobChange) → IsDocument self.old m
            → read.now ≡ Ok (asks.Update id items blobs)
            → AssignsSo m id (asked_of items blobs) listed expected self.new) }
        ensures err { OnErr result ((m : Mirror) → IsDocument self.old m → IsDocument self.new m) }
    {
        match read {
            Ok(
                EditorMessage::Update {
                    version,
                    items,
                    blobs,
                },
            ) => self.assign(
                alloc,
                *version,
                items.as_slice(),
                blobs.as_slice(),
                listed.as_slice(),
            ),
            _ => Ok(false),
        }
    }

    /// What an update prepares, or None where it is refused.
    fn prepare(
        &self,
        alloc: Global,
        id: VersionId,
        items: &[Item],
        blobs: &[BlobChange],
    ) -> Result<Option<Prepared>, AllocError>
        ensures { IfOk result (λ found. (m : Mirror) → IsDocument self.now m → MatchOption found
            (is_refused (buffer_after m id (asked_of items.now blobs.now)) ≡ true)
            (FitsUpdate m id (asked_of items.now blobs.now))) }
    {
        known_law();
        names_law();
        numbers_law();
        if id.number() <= self.last {
            return Ok(None);
        }
        match self.buffer.prepare(alloc, self.live.len(), items, blobs) {
            Ok(prepared) => {
                let _sorted = prepared.nodes().iter();
                Ok(Some(prepared))
            }
            Err(PrepareError::Refused(_)) => Ok(None),
            Err(PrepareError::NoMemory) => Err(AllocError),
        }
    }

    /// The version of an update, with the rows that it is assigned, for the tip and for the live
    /// versions. None, where rows are of a node or a command that it doesn't have.
    fn version(
        &self,
        alloc: Global,
        prepared: &Prepared,
        listed: &[NodeRows],
    ) -> Result<Option<(Known, Known)>, AllocError>
        ensures { IfOk result (λ found. (m : Mirror) (id : ℕ) (asked : Asked)
            → IsDocument self.now m → FitsUpdate m id asked prepared.now → MatchOption found
            (lists_unknown listed.now (Ok prepared.now.after) ≡ true)
            (λ both. (lists_unknown listed.now (Ok prepared.now.after) ≡ false)
            × IsKept both.0 (image_after m.tip listed.now prepared.now.after)
            × IsKept both.1 (image_after m.tip listed.now prepared.now.after))) }
    {
        let nodes = prepared.nodes();
        match renewed(alloc, &self.tip, nodes, prepared.untouched(), listed)? {
            Some(known) => Ok(Some(twice(known)?)),
            None => Ok(None),
        }
    }

    /// Makes the version of an update, with the rows that it is assigned. False, where the update
    /// is refused, or rows are of a node or a command that the version doesn't have.
    fn assign(
        &mut self,
        alloc: Global,
        id: VersionId,
        items: &[Item],
        blobs: &[BlobChange],
        listed: &[NodeRows],
    ) -> Result<bool, AllocError>
        ensures ok { IfOk result (λ expected. (m : Mirror) → IsDocument self.old m
            → AssignsSo m id (asked_of items.now blobs.now) listed.now expected self.new) }
        ensures err { OnErr result ((m : Mirror) → IsDocument self.old m → IsDocument self.new m) }
    {
        let Some(prepared) = self.prepare(alloc, id, items, blobs)? else {
            return Ok(false);
        };
        match self.version(alloc, &prepared, listed) {
            Ok(Some(both)) => self.take(id, prepared, both),
            Ok(None) => {
                drop(prepared);
                Ok(false)
            }
            Err(error) => {
                drop(prepared);
                Err(error)
            }
        }
    }

    /// Takes the version of an update.
    fn take(
        &mut self,
        id: VersionId,
        prepared: Prepared,
        both: (Known, Known),
    ) -> Result<bool, AllocError>
        ensures ok { IfOk result (λ taken. (taken ≡ true) × ((m : Mirror) (asked : Asked)
            (image : Image) → IsDocument self.old m → FitsUpdate m id asked prepared
            → IsKept both.0 image → IsKept both.1 image → image.nodes ≡ prepared.after.nodes
            → IsDocument self.new (with_tip m id prepared.after image))) }
        ensures err { OnErr result ((m : Mirror) → IsDocument self.old m → IsDocument self.new m) }
    {
        let (tip, known) = both;
        match self.live.push(LiveVersion { id, known }) {
            Ok(()) => {
                drop(replace(&mut self.tip, tip));
                self.last = id.number();
                self.buffer.commit(prepared);
                Ok(true)
            }
            Err(failed) => {
                drop(failed);
                drop(tip);
                drop(prepared);
                Err(AllocError)
            }
        }
    }
}

/// The version, and once more in the same memory.
fn twice(known: Known) -> Result<(Known, Known), AllocError>
    ensures { IfOk result (λ both. (both.0 ≡ known) × (both.1 ≡ known)) }
{
    match known.copy() {
        Ok(copy) => Ok((known, copy)),
        Err(error) => {
            drop(known);
            Err(error)
        }
    }
}
