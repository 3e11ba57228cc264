//! Which messages the mirror answers.
ghost use Rattle.std.specs.Prelude.{◌≡◌, IfOk, Ok, MatchOption};
ghost use Rattle.message_values.specs.Asked.{asked};
ghost use Rattle.message_values.specs.declared.editor_message.EditorMessage.TheVariants as asks;
ghost use Rattle.message_values.specs.declared.mode.Mode.TheVariants.{Serve};
ghost use Rattle.mirror_serve.specs.Looks.{IsNoLook};

use byte_message::Message;
use message_values::{EditorMessage, Function, Mode, a_message_is_asked_where_it_is_spelled};
use pide_base::{NodeName, VersionId};
use pide_messages::{ReadError, read};
use sqlite_items::Items;
use std::alloc::{AllocError, Global};
use text_edits::Edit;

/// What a snapshot asks for: a node of a version, behind an editor's pending edits.
#[derive(Drop)]
pub(crate) struct Look {
    pub(crate) version: VersionId,
    pub(crate) node: NodeName,
    pub(crate) edits: Items<Edit>,
}

/// What the message asks for, where it is a snapshot that can be read; else None.
pub(crate) fn look_of(alloc: Global, message: &Message) -> Result<Option<Look>, AllocError>
    ensures { IfOk result (λ found. MatchOption found (IsNoLook (asked Serve message.now))
        (λ look. asked Serve message.now ≡ Ok (asks.Snapshot look.version look.node look.edits))) }
{
    a_message_is_asked_where_it_is_spelled();
    message.is_within_limits();
    if message.chunk(0) != Function::Snapshot.word().as_bytes() {
        return Ok(None);
    }
    match read(alloc, message, Mode::Serve) {
        Ok(asked) => Ok(look_in(asked)),
        Err(ReadError::Refused(_)) => Ok(None),
        Err(ReadError::NoMemory) => Err(AllocError),
    }
}

/// What the message asks for, where it is a snapshot; else None.
fn look_in(message: EditorMessage) -> Option<Look>
    ensures { MatchOption result (IsNoLook (Ok message))
        (λ look. message ≡ asks.Snapshot look.version look.node look.edits) }
{
    match message {
        EditorMessage::Snapshot {
            version,
            node,
            edits,
        } => Some(Look {
            version,
            node,
            edits,
        }),
        other => {
            drop(other);
            None
        }
    }
}
