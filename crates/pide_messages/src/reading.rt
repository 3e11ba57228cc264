//! Reading a message.
ghost use Rattle.std.specs.Prelude.{◌≡◌, ◌<◌, true, false, length, drop, IfOk, MatchOption};
ghost use Rattle.message_values.specs.Functions.{takes};
ghost use Rattle.message_values.specs.Asked.{asked, with_texts};
ghost use Rattle.pide_messages.specs.Gives.{Gives};
ghost use Rattle.pide_messages.specs.Texts.{texts, all_utf8};

use crate::error::ReadError;
use crate::functions::{
    cancel, claim, finish, protocol, remove_versions, settle, snapshot, theory, update,
    update_with_blobs,
};
use byte_message::Message;
use message_values::{EditorMessage, Function, Mode, Refusal};
use std::alloc::{AllocError, Global};

/// What the message asks in the mode, or the first reason for which it is refused:
/// `UnknownFunction`, `ArgumentCount`, `BadUtf8`, `BadYxml`, `BadData`, each tried over all
/// arguments before the next.
pub fn read(alloc: Global, message: &Message, mode: Mode) -> Result<EditorMessage, ReadError>
    ensures { Gives result (asked mode message.now) }
{
    if message.count() == 0 {
        return Err(ReadError::Refused(Refusal::UnknownFunction));
    }
    let Some(function) = Function::named(mode, message.chunk(0)) else {
        return Err(ReadError::Refused(Refusal::UnknownFunction));
    };
    if !function.takes(message.count() - 1) {
        return Err(ReadError::Refused(Refusal::ArgumentCount));
    }
    let Some(arguments) = texts_of(alloc, message)? else {
        return Err(ReadError::Refused(Refusal::BadUtf8));
    };
    message_of(alloc, function, arguments.as_slice())
}

/// The arguments as texts, or None where one isn't UTF-8.
fn texts_of(alloc: Global, message: &Message) -> Result<Option<Vec<&str>>, AllocError>
    requires { 0 < length message.now }
    ensures { IfOk result (λ found. MatchOption found (all_utf8 (drop 1 message.now) ≡ false)
        (λ arguments. (all_utf8 (drop 1 message.now) ≡ true)
        × (texts arguments.items ≡ drop 1 message.now))) }
{
    let mut arguments = Vec::new(alloc);
    'chunks: for number in 1..message.count() {
        let Ok(text) = str::from_utf8(message.chunk(number)) else {
            return Ok(None);
        };
        arguments.push(text)?;
    }
    Ok(Some(arguments))
}

/// The message that the function makes of the texts.
fn message_of(
    alloc: Global,
    function: Function,
    arguments: &[&str],
) -> Result<EditorMessage, ReadError>
    requires { takes function (length arguments.now) ≡ true }
    ensures { Gives result (with_texts function (texts arguments.now)) }
{
    match (function, arguments) {
        (Function::Update, [version, items]) => update(alloc, version, items),
        (Function::Update, [version, items, blobs]) => {
            update_with_blobs(alloc, version, items, blobs)
        }
        (Function::Snapshot, [version, node, edits]) => snapshot(alloc, version, node, edits),
        (Function::Cancel, [exec]) => cancel(exec),
        (Function::RemoveVersions, [versions]) => remove_versions(alloc, versions),
        (Function::Settle, [version]) => settle(version),
        (Function::Protocol, [number]) => protocol(number),
        (Function::Claim, [worker]) => claim(worker),
        (Function::Finish, [worker]) => finish(worker),
        (Function::Theory, [node, text]) => theory(alloc, node, text),
        _ => Err(ReadError::Refused(Refusal::BadData)),
    }
}
