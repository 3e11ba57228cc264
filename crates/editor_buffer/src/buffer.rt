//! The buffer, and updates of it.
ghost use Rattle.std.specs.Prelude.{◌≡◌, ◌↔◌, IsTrue, IfOk};
ghost use Rattle.std.specs.Bool.{OnTrue};
ghost use Rattle.std.specs.List.{AllZip};
ghost use Rattle.buffer_rules.specs.Updates.{sheets_after};
ghost use Rattle.buffer_rules.specs.Preparing.{empty_buffer, prepared};
ghost use Rattle.editor_buffer.specs.Telling.{Tells};
ghost use Rattle.editor_buffer.specs.Standing.{sheets_of, Drafted};
ghost use Rattle.doc_nodes.specs.Heads.{heads};
ghost use Rattle.editor_buffer.specs.Heads.{KeepHeaders};
ghost use Rattle.editor_buffer.specs.NameSets.{AreChanged};
ghost use Rattle.buffer_rules.specs.Nodes.{AreKept};
ghost use Rattle.editor_buffer.specs.Cutting.{IsCutWhole};
ghost use Rattle.editor_buffer.specs.Preparation.{buffer_of, IsStanding, Preparation};

use crate::blobs::{BlobEdits, BlobNames, Blobs, blob_edits};
use crate::cutting::{Cutting, Tip, cut_all};
use crate::draft::{Draft, OpenNodes};
use crate::fault::PrepareError;
use crate::limits::is_large;
use crate::twice::names_twice;
use doc_nodes::Nodes;
use message_values::{BlobChange, Item, Refusal};
use pide_base::are_too_many_live;
use shared_map::SharedMap;
use std::alloc::Global;
use std::marker::Model;

/// The document as the editor has it: its texts, perspectives and blobs, the nodes of the newest
/// version, and the next command id. Contracts see it as the record of these.
#[derive(Drop)]
pub struct Buffer {
    opened: OpenNodes,
    blobs: Blobs,
    nodes: Nodes,
    next: u64,
}

impl Model for Buffer {
    ghost use Rattle.buffer_rules.specs.Preparing.{Buffer};
    ghost use Rattle.editor_buffer.specs.Preparation.{buffer_of, IsStanding};

    ghost Value = { Buffer };

    ghost view = { λ b. buffer_of b.opened b.blobs b.nodes b.next };

    ghost invariant = { λ b. IsStanding b.opened b.nodes b.next };
}

/// An update that is prepared. Contracts see the buffer after it, and what it leaves alone.
#[derive(Drop)]
pub struct Prepared {
    buffer: Buffer,
    untouched: Vec<bool>,
    changed: BlobNames,
}

impl Model for Prepared {
    ghost use Rattle.editor_buffer.specs.Preparation.{Preparation};

    ghost Value = { Preparation };

    ghost view = { λ p. record {
      after = p.buffer;
      untouched = p.untouched.items;
      changed = p.changed;
    } };
}

impl Prepared {
    /// The nodes of the new version.
    pub fn nodes(&self) -> &Nodes
        ensures { result.now ≡ self.now.after.nodes }
    {
        self.buffer.nodes()
    }

    /// The blobs of the new version.
    pub fn blobs(&self) -> &Blobs
        ensures { result.now ≡ self.now.after.document.blobs }
    {
        self.buffer.blobs()
    }

    /// A mark for each node, by name: where it is set, the node is that of the version before.
    pub fn untouched(&self) -> &[bool]
        ensures { result.now ≡ self.now.untouched }
    {
        &self.untouched
    }

    /// The names of the blobs that differ from those of the version before: one that is in one of
    /// them alone counts.
    pub fn changed(&self) -> &BlobNames
        ensures { result.now ≡ self.now.changed }
    {
        &self.changed
    }
}

/// What is prepared when all nodes are cut.
fn prepared_of(cutting: Cutting, edits: BlobEdits) -> Prepared
    requires { IsStanding cutting.opened cutting.nodes cutting.next }
    ensures { result ≡ record {
      after = buffer_of cutting.opened edits.blobs cutting.nodes cutting.next;
      untouched = cutting.untouched.items;
      changed = edits.changed;
    } }
{
    Prepared {
        buffer: Buffer {
            opened: cutting.opened,
            blobs: edits.blobs,
            nodes: cutting.nodes,
            next: cutting.next,
        },
        untouched: cutting.untouched,
        changed: edits.changed,
    }
}

impl Buffer {
    /// The buffer before any update.
    pub fn new() -> Buffer
        ensures { result ≡ empty_buffer }
    {
        Buffer {
            opened: SharedMap::new(),
            blobs: SharedMap::new(),
            nodes: SharedMap::new(),
            next: 1,
        }
    }

    /// The nodes of the newest version.
    pub fn nodes(&self) -> &Nodes
        ensures { result.now ≡ self.now.nodes }
    {
        &self.nodes
    }

    /// The blobs of the newest version.
    pub fn blobs(&self) -> &Blobs
        ensures { result.now ≡ self.now.document.blobs }
    {
        &self.blobs
    }

    /// The open nodes after the items. `NodeTwice` is tried before all of them.
    fn drafted(&self, alloc: Global, items: &[Item]) -> Result<Draft, PrepareError>
        ensures opened { Tells (λ draft. sheets_of draft.opened) result
            (sheets_after items.now self.now.document.sheets) }
        ensures drafted { IfOk result
            (λ draft. AllZip (Drafted self.now.nodes) draft.opened draft.nodes) }
        ensures headers { IfOk result (λ draft. IsTrue draft.headers_stand
            ↔ KeepHeaders items.now self.now.document.sheets) }
        ensures stand { IfOk result (λ draft. OnTrue draft.headers_stand
            (heads draft.nodes ≡ heads self.now.nodes)) }
    {
        if names_twice(alloc, items)? {
            return Err(PrepareError::Refused(Refusal::NodeTwice));
        }
        let _sorted = self.nodes.iter();
        let draft = Draft {
            opened: self.opened.copy()?,
            nodes: self.nodes.copy()?,
            headers_stand: true,
        };
        draft.with_items(alloc, items)
    }

    /// What the update makes, where so many versions are live. It is `Refused` for the first
    /// reason that holds: `NodeTwice`; then, item by item, `UnknownNode`, `EditOutOfRange`,
    /// `RemoveDiffers` and `PerspectiveOutOfRange`; then, blob by blob, `BlobTwice` and
    /// `UnknownBlob`; then `Limit`, where there would be too many nodes, blobs, versions or ids, or
    /// too long a text. The buffer stays as it is.
    pub fn prepare(
        &self,
        alloc: Global,
        live: usize,
        items: &[Item],
        blobs: &[BlobChange],
    ) -> Result<Prepared, PrepareError>
        ensures after { Tells (λ made. made.after) result
            (prepared self.now live (record { items = items.now; blobs = blobs.now })) }
        ensures untouched { IfOk result
            (λ made. AreKept self.now.nodes made.untouched made.after.nodes) }
        ensures changed { IfOk result (λ made. AreChanged made.changed self.now.document.blobs
            made.after.document.blobs) }
    {
        let draft = self.drafted(alloc, items)?;
        let edits = blob_edits(alloc, &self.blobs, blobs)?;
        if is_large(&draft.opened, &edits.blobs) || are_too_many_live(live.saturating_add(1)) {
            drop(draft);
            drop(edits);
            return Err(PrepareError::Refused(Refusal::Limit));
        }
        let tip = Tip {
            opened: &self.opened,
            nodes: &self.nodes,
            next: self.next,
        };
        match cut_all(alloc, &tip, draft) {
            Ok(cutting) => Ok(prepared_of(cutting, edits)),
            Err(error) => {
                drop(edits);
                Err(error)
            }
        }
    }

    /// Makes what was prepared the buffer. It takes no memory.
    pub fn commit(&mut self, prepared: Prepared)
        ensures { self.new ≡ prepared.after }
    {
        let Prepared {
            buffer,
            untouched,
            changed,
        } = prepared;
        drop(untouched);
        drop(changed);
        drop(std::mem::replace(self, buffer));
    }
}
