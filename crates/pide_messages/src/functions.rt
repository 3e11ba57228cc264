//! The message that each function makes of its arguments. Data is parsed first, so that a fault of
//! YXML is told before another shape.
ghost use Rattle.std.specs.Prelude.{[], ◌∷◌};
ghost use Rattle.message_values.specs.declared.function.Function.TheVariants.{Update, Snapshot, Cancel, RemoveVersions, Settle, Protocol, Claim, Finish, Theory};
ghost use Rattle.message_values.specs.Asked.{with_texts};
ghost use Rattle.pide_messages.specs.Gives.{Gives};

use crate::arguments::{body_of, exec_of, node_of, protocol_of, version_of, worker_of};
use crate::error::ReadError;
use message_values::{EditorMessage, list_of};
use sqlite_items::Items;
use std::alloc::Global;
use text_edits::Text;

pub(crate) fn update(alloc: Global, version: &str, items: &str) -> Result<EditorMessage, ReadError>
    ensures { Gives result (with_texts Update (version.now ∷ items.now ∷ [])) }
{
    let items = body_of(items)?;
    let version = version_of(version)?;
    let items = list_of(alloc, items)?;
    let blobs = Items::new(alloc);
    Ok(EditorMessage::Update {
        version,
        items,
        blobs,
    })
}

pub(crate) fn update_with_blobs(
    alloc: Global,
    version: &str,
    items: &str,
    blobs: &str,
) -> Result<EditorMessage, ReadError>
    ensures { Gives result (with_texts Update (version.now ∷ items.now ∷ blobs.now ∷ [])) }
{
    let items = body_of(items)?;
    let blobs = body_of(blobs)?;
    let version = version_of(version)?;
    let items = list_of(alloc, items)?;
    let blobs = list_of(alloc, blobs)?;
    Ok(EditorMessage::Update {
        version,
        items,
        blobs,
    })
}

pub(crate) fn snapshot(
    alloc: Global,
    version: &str,
    node: &str,
    edits: &str,
) -> Result<EditorMessage, ReadError>
    ensures { Gives result (with_texts Snapshot (version.now ∷ node.now ∷ edits.now ∷ [])) }
{
    let edits = body_of(edits)?;
    let version = version_of(version)?;
    let node = node_of(alloc, node)?;
    let edits = list_of(alloc, edits)?;
    Ok(EditorMessage::Snapshot {
        version,
        node,
        edits,
    })
}

pub(crate) fn cancel(exec: &str) -> Result<EditorMessage, ReadError>
    ensures { Gives result (with_texts Cancel (exec.now ∷ [])) }
{
    let exec = exec_of(exec)?;
    Ok(EditorMessage::Cancel { exec })
}

pub(crate) fn remove_versions(alloc: Global, versions: &str) -> Result<EditorMessage, ReadError>
    ensures { Gives result (with_texts RemoveVersions (versions.now ∷ [])) }
{
    let versions = body_of(versions)?;
    let versions = list_of(alloc, versions)?;
    Ok(EditorMessage::RemoveVersions { versions })
}

pub(crate) fn settle(version: &str) -> Result<EditorMessage, ReadError>
    ensures { Gives result (with_texts Settle (version.now ∷ [])) }
{
    let version = version_of(version)?;
    Ok(EditorMessage::Settle { version })
}

pub(crate) fn protocol(number: &str) -> Result<EditorMessage, ReadError>
    ensures { Gives result (with_texts Protocol (number.now ∷ [])) }
{
    let protocol = protocol_of(number)?;
    Ok(EditorMessage::Protocol { protocol })
}

pub(crate) fn claim(worker: &str) -> Result<EditorMessage, ReadError>
    ensures { Gives result (with_texts Claim (worker.now ∷ [])) }
{
    let worker = worker_of(worker)?;
    Ok(EditorMessage::Claim { worker })
}

pub(crate) fn finish(worker: &str) -> Result<EditorMessage, ReadError>
    ensures { Gives result (with_texts Finish (worker.now ∷ [])) }
{
    let worker = worker_of(worker)?;
    Ok(EditorMessage::Finish { worker })
}

pub(crate) fn theory(alloc: Global, node: &str, text: &str) -> Result<EditorMessage, ReadError>
    ensures { Gives result (with_texts Theory (node.now ∷ text.now ∷ [])) }
{
    let node = node_of(alloc, node)?;
    let text = Text::from_str(alloc, text)?;
    Ok(EditorMessage::Theory { node, text })
}
