//! The blob that a command asks for.
ghost use Rattle.std.specs.Prelude.{◌≡◌, codes, IfOk};
ghost use Rattle.std.specs.Option.{option_and_then};
ghost use Rattle.doc_nodes.specs.Names.{equal};
ghost use Rattle.doc_nodes.specs.Needs.{is_load, asked_by, named_by, just_two, needs};

use crate::alias::Aliases;
use crate::blob_name::BlobName;
use crate::naming::meant;
use outer_syntax::{Kind, Token, content, proper_under, scalars};
use std::alloc::{AllocError, Global};
use std::cmp::Ordering;
use text_words::text_of;

/// The name of the blob that the command of this source, in scalars, asks for: the source is the
/// command `load`, or an alias of it, and a string that contains a blob's name. Else it is None.
pub fn needs(
    alloc: Global,
    source: &[char],
    aliases: &Aliases,
) -> Result<Option<BlobName>, AllocError>
    ensures { IfOk result (λ name. name ≡ needs source.now aliases.now) }
{
    let proper = proper_under(alloc, source, aliases.names())?;
    of_tokens(alloc, source, aliases, &proper)
}

/// The blob that the proper tokens of the source ask for.
fn of_tokens(
    alloc: Global,
    source: &[char],
    aliases: &Aliases,
    proper: &[Token],
) -> Result<Option<BlobName>, AllocError>
    ensures { IfOk result (λ found. found
        ≡ option_and_then (asked_by source.now aliases.now) (just_two proper.now)) }
{
    let [name, others @ ..] = proper else {
        return Ok(None);
    };
    let [blob, more @ ..] = others else {
        return Ok(None);
    };
    if !more.is_empty() {
        return Ok(None);
    }
    asked_by(alloc, source, aliases, *name, *blob)
}

/// The blob that the two tokens of the source ask for.
fn asked_by(
    alloc: Global,
    source: &[char],
    aliases: &Aliases,
    name: Token,
    blob: Token,
) -> Result<Option<BlobName>, AllocError>
    ensures { IfOk result (λ found. found ≡ asked_by source.now aliases.now (name, blob)) }
{
    if !is_load(source, aliases, name) || blob.kind != Kind::String {
        return Ok(None);
    }
    let named = content(alloc, blob.kind, scalars(source, blob.range))?;
    named_by(alloc, &named)
}

/// Whether the token is a name that stands for `load`.
fn is_load(source: &[char], aliases: &Aliases, name: Token) -> bool
    ensures { result ≡ is_load aliases.now source.now name }
{
    if name.kind != Kind::Command {
        return false;
    }
    spells_load(meant(aliases, scalars(source, name.range)))
}

fn spells_load(word: &[char]) -> bool
    ensures { result ≡ equal word.now (codes "load") }
{
    let load: &[char] = &['l', 'o', 'a', 'd'];
    match word.cmp(load) {
        Ordering::Equal => true,
        Ordering::Less | Ordering::Greater => false,
    }
}

/// The blob's name that the content is.
fn named_by(alloc: Global, content: &[char]) -> Result<Option<BlobName>, AllocError>
    ensures { IfOk result (λ name. name ≡ named_by content.now) }
{
    match BlobName::new(text_of(alloc, content)?) {
        Ok(name) => Ok(Some(name)),
        Err(_) => Ok(None),
    }
}
