//! Changes of the auxiliary blobs.
ghost use Rattle.std.specs.Prelude.{◌≡◌, ◌↔◌, ℕ, List, [], ◌∷◌, false, Some, None, if◌then◌else◌, IsTrue, IfOk};
ghost use Rattle.std.specs.Option.{option_copied};
ghost use Rattle.std.specs.Ordering.{is_eq};
ghost use Rattle.shared_map.specs.Pairs.{found};
ghost use Rattle.doc_nodes.specs.Names.{in_order};
ghost use Rattle.message_values.specs.declared.item.BlobChange.{BlobChange};
ghost use Rattle.buffer_rules.specs.Updates.{blob_once, blobs_after};
ghost use Rattle.editor_buffer.specs.Telling.{Tells};
ghost use Rattle.editor_buffer.specs.NameSets.{AreNames, AreChanged};
ghost use Rattle.editor_buffer.specs.BlobSteps.{blob_step};

use crate::fault::PrepareError;
use doc_nodes::{BlobName, Shared};
use joined_results::{both, each_of_three};
use message_values::{BlobChange, Refusal};
use shared_map::SharedMap;
use std::alloc::{AllocError, Global};
use text_edits::Text;

/// The auxiliary blobs of a document, by name.
pub type Blobs = SharedMap<BlobName, Shared<Text>>;

/// Names of blobs.
pub type BlobNames = SharedMap<BlobName, ()>;

/// Blobs after changes: which there are now, of which names changes came, and of which names the
/// blobs differ from those before all changes.
#[derive(Drop)]
pub struct BlobEdits {
    pub blobs: Blobs,
    pub came: BlobNames,
    pub changed: BlobNames,
}

/// Whether the text is that of the blob.
fn is_text(blob: Option<&Shared<Text>>, text: &Text) -> bool
    ensures { IsTrue result ↔ (option_copied blob.entry ≡ Some text.now) }
{
    match blob {
        Some(blob) => blob.get().as_slice() == text.as_slice(),
        None => false,
    }
}

/// The names with this one, or without it.
fn marked(
    alloc: Global,
    names: BlobNames,
    name: &BlobName,
    is_in: bool,
) -> Result<BlobNames, AllocError>
    ensures { IfOk result (λ set. (other : List ℕ) → found in_order other set
        ≡ (if is_eq (in_order name.now other) then (if is_in then Some tt else None)
        else found in_order other names)) }
{
    let mut names = names;
    if is_in {
        names.set(alloc, name.clone()?, ())?;
        return Ok(names);
    }
    names.remove(alloc, name)?;
    Ok(names)
}

/// The text in memory that can be shared.
fn shared(alloc: Global, text: &Text) -> Result<Shared<Text>, AllocError>
    ensures { IfOk result (λ shared. shared ≡ text.now) }
{
    match Shared::new(alloc, text.copy(alloc)?) {
        Ok(shared) => Ok(shared),
        Err(_) => Err(AllocError),
    }
}

/// The blobs with this one, or without it.
fn once(
    alloc: Global,
    blobs: Blobs,
    name: &BlobName,
    text: &Option<Text>,
) -> Result<Blobs, AllocError>
    ensures blobs { IfOk result (λ after. after ≡ blob_once name.now text.now blobs) }
    ensures found { IfOk result (λ after. (other : List ℕ) → found in_order other after
        ≡ (if is_eq (in_order name.now other) then text.now else found in_order other blobs)) }
{
    let mut blobs = blobs;
    match text {
        Some(text) => {
            let (name, text) = both(name.clone(), shared(alloc, text))?;
            blobs.set(alloc, name, text)?;
            Ok(blobs)
        }
        None => {
            blobs.remove(alloc, name)?;
            Ok(blobs)
        }
    }
}

/// Whether the blob of the name has another text than this, or is there where this is none.
fn differs(before: &Blobs, name: &BlobName, text: &Option<Text>) -> bool
    ensures { (result ≡ false) ↔ (found in_order name.now before.now ≡ text.now) }
{
    match text {
        Some(text) => !is_text(before.get(name), text),
        None => before.get(name).is_some(),
    }
}

impl BlobEdits {
    /// After a change that is not refused.
    fn with_text(
        self,
        alloc: Global,
        before: &Blobs,
        change: &BlobChange,
    ) -> Result<BlobEdits, AllocError>
        ensures blobs { IfOk result (λ edits. edits.blobs
            ≡ blob_once change.now.name change.now.text self.blobs) }
        ensures came { (names : List (List ℕ)) → AreNames self.came names
            → IfOk result (λ edits. AreNames edits.came (change.now.name ∷ names)) }
        ensures changed { AreChanged self.changed before.now self.blobs
            → IfOk result (λ edits. AreChanged edits.changed before.now edits.blobs) }
    {
        let BlobEdits {
            blobs,
            came,
            changed,
        } = self;
        let is_other = differs(before, &change.name, &change.text);
        let (blobs, came, changed) = each_of_three(
            once(alloc, blobs, &change.name, &change.text),
            marked(alloc, came, &change.name, true),
            marked(alloc, changed, &change.name, is_other),
        )?;
        Ok(BlobEdits {
            blobs,
            came,
            changed,
        })
    }

    /// After one change.
    fn with_change(
        self,
        alloc: Global,
        before: &Blobs,
        change: &BlobChange,
    ) -> Result<BlobEdits, PrepareError>
        ensures blobs { (names : List (List ℕ)) → AreNames self.came names
            → Tells (λ edits. edits.blobs) result
            (blob_step before.now names change.now self.blobs) }
        ensures came { (names : List (List ℕ)) → AreNames self.came names
            → IfOk result (λ edits. AreNames edits.came (change.now.name ∷ names)) }
        ensures changed { AreChanged self.changed before.now self.blobs
            → IfOk result (λ edits. AreChanged edits.changed before.now edits.blobs) }
    {
        if self.came.get(&change.name).is_some() {
            drop(self);
            return Err(PrepareError::Refused(Refusal::BlobTwice));
        }
        if change.text.is_none() && before.get(&change.name).is_none() {
            drop(self);
            return Err(PrepareError::Refused(Refusal::UnknownBlob));
        }
        Ok(self.with_text(alloc, before, change)?)
    }
}

/// The blobs after the changes, one after the other. `BlobTwice` and `UnknownBlob` come with the
/// first change that is refused: one of a name that came, or one that removes what was not there
/// before the update.
pub fn blob_edits(
    alloc: Global,
    before: &Blobs,
    changes: &[BlobChange],
) -> Result<BlobEdits, PrepareError>
    ensures blobs { Tells (λ edits. edits.blobs) result
        (blobs_after before.now [] changes.now before.now) }
    ensures changed { IfOk result (λ edits. AreChanged edits.changed before.now edits.blobs) }
{
    let mut edits = BlobEdits {
        blobs: before.copy()?,
        came: SharedMap::new(),
        changed: SharedMap::new(),
    };
    let mut rest = changes;
    'each: while let [change, more @ ..] = rest {
        edits = edits.with_change(alloc, before, change)?;
        rest = more;
    }
    Ok(edits)
}
