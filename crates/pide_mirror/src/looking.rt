//! What is answered of a node.
ghost use Rattle.std.specs.Prelude.{◌≡◌, map, IfOk};
ghost use Rattle.std.specs.List.{AllByRecursion};
ghost use Rattle.buffer_rules.specs.Texts.{edit_once, edit_all};
ghost use Rattle.mirror_rules.specs.Images.{Image};
ghost use Rattle.mirror_rules.specs.Looking.{view_in, view_of};
ghost use Rattle.mirror_rules.specs.Moves.{mirrored};
ghost use Rattle.pide_mirror.specs.Kept.{IsKept};
ghost use Rattle.message_values.specs.declared.refusal.Refusal.TheVariants.{UnknownNode};
ghost use Rattle.message_values.specs.Asked.{or_refused};
ghost use Rattle.pide_mirror.specs.KeptNodes.{HasId};
ghost use Rattle.pide_mirror.specs.Looking.{as_node, as_view, node_of, node_in, node_view, Answers, LooksSo, TriedSo};
ghost use Rattle.pide_mirror.specs.NodeParts.{as_shown};

use crate::known::Known;
use crate::look_error::LookError;
use crate::mirror::Mirror;
use crate::parts::{NodeParts, node_parts};
use buffer_rules::edits_law;
use message_values::Refusal;
use pide_base::{NodeName, VersionId};
use snapshots::{AssignedPart, Snapshot, are_movable, snapshot};
use std::alloc::{AllocError, Global};
use text_edits::{Edit, EditFault, Text, apply};

impl Mirror {
    /// What is known of a node in a live version: its text, and the parts of its commands.
    /// `UnknownVersion` comes where the version isn't live, `UnknownNode` where it doesn't have the
    /// node. It costs the node's rows, times a logarithm, whatever else the version has.
    pub fn parts<'a>(
        &'a self,
        alloc: Global,
        version: VersionId,
        node: &NodeName,
    ) -> Result<NodeParts<'a>, LookError>
        ensures parts { LooksSo as_node (node_in version node.now)
            (mirrored self.now.mode self.now.moves) result }
        ensures executions { IfOk result
            (λ found. AllByRecursion HasId (map as_shown found.parts)) }
    {
        match self.version(version) {
            Ok(Some(known)) => node_of(alloc, known, node),
            Ok(None) => Err(LookError::Refused(Refusal::UnknownVersion)),
            Err(fault) => Err(LookError::Fault(fault)),
        }
    }

    /// What is seen of a node in a live version, in the text that the edits make of the version's.
    /// It is refused as `parts` is; `EditOutOfRange` and `RemoveDiffers` come with the first edit
    /// that the text doesn't take. Beside what `parts` costs, an edit costs the text, and each
    /// report, once.
    pub fn snapshot<'a>(
        &'a self,
        alloc: Global,
        version: VersionId,
        node: &NodeName,
        edits: &[Edit],
    ) -> Result<Snapshot<'a>, LookError>
        ensures { LooksSo as_view (λ m. view_in m version node.now edits.now)
            (mirrored self.now.mode self.now.moves) result }
    {
        match self.parts(alloc, version, node) {
            Ok(NodeParts { text, parts }) => view(alloc, text, parts.as_slice(), edits),
            Err(error) => Err(error),
        }
    }
}

/// The node of a name in a version, or `UnknownNode`.
fn node_of<'a>(alloc: Global, known: &'a Known, name: &NodeName) -> Result<NodeParts<'a>, LookError>
    ensures node { (image : Image) → IsKept known.now image
        → Answers as_node (or_refused UnknownNode (node_of image name.now)) result }
    ensures executions { IfOk result (λ found. AllByRecursion HasId (map as_shown found.parts)) }
{
    match node_parts(alloc, known, name) {
        Ok(Some(found)) => Ok(found),
        Ok(None) => Err(LookError::Refused(Refusal::UnknownNode)),
        Err(AllocError) => Err(LookError::NoMemory),
    }
}

/// What is seen of a node's parts, where its text takes the edits.
fn view<'a>(
    alloc: Global,
    text: &[char],
    parts: &[AssignedPart<'a>],
    edits: &[Edit],
) -> Result<Snapshot<'a>, LookError>
    requires { AllByRecursion HasId (map as_shown parts.now) }
    ensures { Answers as_view (node_view edits.now (text.now, map as_shown parts.now)) result }
{
    match try_edits(alloc, text, edits) {
        Ok(()) => match shown(alloc, parts, edits) {
            Ok(shot) => Ok(shot),
            Err(AllocError) => Err(LookError::NoMemory),
        },
        Err(error) => Err(error),
    }
}

/// The snapshot of the parts. Want of memory is answered, too, where a place would leave the
/// numbers that there are: no text in memory is as long.
fn shown<'a>(
    alloc: Global,
    parts: &[AssignedPart<'a>],
    edits: &[Edit],
) -> Result<Snapshot<'a>, AllocError>
    requires { AllByRecursion HasId (map as_shown parts.now) }
    ensures { IfOk result (λ shot. as_view shot ≡ view_of (map as_shown parts.now) edits.now) }
{
    if !are_movable(parts, edits) {
        return Err(AllocError);
    }
    snapshot(alloc, parts, edits)
}

/// Whether the text takes the edits, made one after the other.
fn try_edits(alloc: Global, text: &[char], edits: &[Edit]) -> Result<(), LookError>
    ensures { TriedSo (edit_all edits.now text.now) result }
{
    if edits.is_empty() {
        return Ok(());
    }
    let mut edited = Text::from_slice(alloc, text)?;
    edit_in_place(&mut edited, edits)
}

/// Makes the edits in the text, one after the other, up to the first that it doesn't take.
fn edit_in_place(text: &mut Text, edits: &[Edit]) -> Result<(), LookError>
    ensures { Answers (λ done. text.new) (edit_all edits.now text.old) result }
{
    let mut rest = edits;
    'each: while let [edit, more @ ..] = rest {
        make(text, edit)?;
        rest = more;
    }
    Ok(())
}

/// Makes one edit in the text, unless the text doesn't take it.
fn make(text: &mut Text, edit: &Edit) -> Result<(), LookError>
    ensures { Answers (λ done. text.new) (edit_once edit.now text.old) result }
{
    edits_law();
    match apply(text, edit) {
        Ok(()) => Ok(()),
        Err(EditFault::OutOfRange { .. }) => Err(LookError::Refused(Refusal::EditOutOfRange)),
        Err(EditFault::Differs { .. }) => Err(LookError::Refused(Refusal::RemoveDiffers)),
        Err(EditFault::NoMemory) => Err(LookError::NoMemory),
    }
}
