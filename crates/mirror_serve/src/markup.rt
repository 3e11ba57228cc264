//! The reply to a snapshot, by what the mirror knows.
ghost use Rattle.std.specs.Prelude.{◌≡◌, map, IfOk};
ghost use Rattle.mirror_rules.specs.Moves.{mirrored};
ghost use Rattle.pide_mirror.specs.Looking.{LooksSo, as_view};
ghost use Rattle.document_session.specs.session_replies_below.Edited.{text_of};
ghost use Rattle.document_session.specs.session_replies_below.Spelling.{reply_spelling};
ghost use Rattle.session_rules.specs.Shown.{protocol_reports};
ghost use Rattle.snapshots.specs.Seen.{seen};
ghost use Rattle.mirror_serve.specs.Looks.{in_bytes, markup_in, markup_told, markup_with, text_in};

use crate::look::Look;
use document_session::session_replies_below::{Edited, edited_text};
use editor_buffer::PrepareError;
use message_values::Protocol;
use pide_mirror::{LookError, Mirror, NodeParts};
use reply_messages::{Reports, markup};
use snapshots::{Shown, Snapshot};
use std::alloc::{AllocError, Global};
use symbol_markup::in_symbols;

/// The reply to a snapshot, by what the mirror knows. It is refused as `Mirror::snapshot` refuses
/// it.
pub(crate) fn markup_of(
    alloc: Global,
    mirror: &Mirror,
    protocol: Protocol,
    look: &Look,
) -> Result<Vec<u8>, LookError>
    ensures { LooksSo (λ bytes. bytes.items)
        (λ m. in_bytes (markup_in protocol look.now.version look.now.node look.now.edits m))
        (mirrored mirror.now.mode mirror.now.moves) result }
{
    match mirror.snapshot(alloc, look.version, &look.node, look.edits.as_slice()) {
        Ok(shot) => markup_by(alloc, mirror, protocol, look, shot),
        Err(error) => Err(error),
    }
}

/// The reply that tells what is seen of the node.
fn markup_by<'a>(
    alloc: Global,
    mirror: &Mirror,
    protocol: Protocol,
    look: &Look,
    shot: Snapshot<'a>,
) -> Result<Vec<u8>, LookError>
    ensures { LooksSo (λ bytes. bytes.items)
        (λ m. in_bytes (markup_with protocol look.now.version look.now.node look.now.edits
        (as_view shot.entry) m)) (mirrored mirror.now.mode mirror.now.moves) result }
{
    match text_behind(alloc, mirror, look) {
        Ok(text) => {
            let reply = reply_of(alloc, protocol, look, text.scalars(), shot);
            drop(text);
            match reply {
                Ok(reply) => Ok(reply),
                Err(AllocError) => Err(LookError::NoMemory),
            }
        }
        Err(error) => {
            drop(shot);
            Err(error)
        }
    }
}

/// The text of the node, behind the pending edits.
fn text_behind<'m>(alloc: Global, mirror: &'m Mirror, look: &Look) -> Result<Edited<'m>, LookError>
    ensures { LooksSo text_of (text_in look.now.version look.now.node look.now.edits)
        (mirrored mirror.now.mode mirror.now.moves) result }
{
    match mirror.parts(alloc, look.version, &look.node) {
        Ok(NodeParts { text, parts }) => {
            drop(parts);
            match edited_text(alloc, text, look.edits.as_slice()) {
                Ok(edited) => Ok(edited),
                Err(PrepareError::Refused(reason)) => Err(LookError::Refused(reason)),
                Err(PrepareError::NoMemory) => Err(LookError::NoMemory),
            }
        }
        Err(error) => Err(error),
    }
}

/// The reply that tells what is seen, where this is the text behind the pending edits.
fn reply_of<'a>(
    alloc: Global,
    protocol: Protocol,
    look: &Look,
    text: &[char],
    shot: Snapshot<'a>,
) -> Result<Vec<u8>, AllocError>
    ensures { IfOk result (λ bytes. bytes.items ≡ reply_spelling (markup_told protocol
        look.now.version look.now.node (as_view shot.entry) text.now)) }
{
    let Snapshot {
        reports,
        pending,
        outdated,
    } = shot;
    match told_reports(alloc, protocol, text, reports) {
        Ok(told) => markup(
            alloc,
            look.version,
            &look.node,
            Reports::Shown(&told),
            &pending,
            outdated,
        ),
        Err(error) => {
            drop(pending);
            Err(error)
        }
    }
}

/// What is shown of the text, as the protocol tells it.
fn told_reports<'a>(
    alloc: Global,
    protocol: Protocol,
    text: &[char],
    shown: Vec<Shown<'a>>,
) -> Result<Vec<Shown<'a>>, AllocError>
    ensures { IfOk result (λ reports. map seen reports.items
        ≡ protocol_reports protocol text.now (map seen shown.entry.items)) }
{
    match protocol {
        Protocol::Scalars => Ok(shown),
        Protocol::Symbols => in_symbols(alloc, text, &shown),
    }
}
