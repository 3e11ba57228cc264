//! Snapshots that the session takes note of.
ghost use Rattle.std.specs.Prelude.{◌≡◌, ◌∷◌, [], OnOk, OnErr, Ok};
ghost use Rattle.message_values.specs.Asked.{asked};
ghost use Rattle.message_values.specs.declared.editor_message.EditorMessage.TheVariants as asks;
ghost use Rattle.message_values.specs.declared.mode.Mode.TheVariants.{Serve};
ghost use Rattle.reply_outbox.specs.declared.item.Item.TheVariants.{Made};
ghost use Rattle.reply_outbox.specs.Items.{entries};
ghost use Rattle.session_rules.specs.declared.entry.Entry.TheVariants as entry;
ghost use Rattle.document_session.specs.keeping_rules_below.Legal.{AreLegal};
ghost use Rattle.mirror_serve.specs.LongReplies.{HasShortReplies};
ghost use Rattle.mirror_serve.specs.Resting.{IsImageOf, Rests};

use crate::ear::Ear;
use crate::laws::mirror_laws;
use crate::look::Look;
use crate::markup::markup_of;
use byte_message::Message;
use document_session::Session;
use language::Language;
use pide_mirror::LookError;
use reply_outbox::Past;
use session_rules::{Entry, Service};
use std::alloc::{AllocError, Global};

/// Has the session take note of a snapshot, and of the reply that tells what the mirror knows, or
/// refuse it. At want of memory nothing has changed, and the message is lost.
pub(crate) fn note_look<L: Language, P: Past<Service, Entry> + Drop>(
    alloc: Global,
    session: &mut Session<L, P>,
    ear: &Ear,
    message: Message,
    look: Look,
) -> Result<(), AllocError>
    requires rests { Rests L.lang session.old ear.now }
    requires read { asked Serve message
        ≡ Ok (asks.Snapshot look.version look.node look.edits) }
    ensures service { session.new.service ≡ session.old.service }
    ensures items { OnOk result (session.new.items
        ≡ Made (entry.Call message) ∷ session.old.items) }
    ensures image { OnOk result (IsImageOf L.lang session.new.service []
        (entries session.new.items) [] ear.now.mirror) }
    ensures short { OnOk result (HasShortReplies L.lang session.new) }
    ensures err { OnErr result (session.new ≡ session.old) }
    ensures legal { AreLegal L.lang session.new.service session.new.items }
{
    mirror_laws::<L>();
    session.none_due();
    let told = markup_of(alloc, &ear.mirror, session.protocol(), &look);
    drop(look);
    match told {
        Ok(reply) => session.noted(message, reply),
        Err(LookError::Refused(reason)) => {
            drop(session.refuse(alloc, message, reason)?);
            Ok(())
        }
        Err(LookError::NoMemory) => {
            drop(message);
            Err(AllocError)
        }
        Err(LookError::Fault(_)) => unreachable!(),
    }
}
