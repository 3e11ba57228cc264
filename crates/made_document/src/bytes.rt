//! The bytes of the messages.
ghost use Rattle.std.specs.Prelude.{◌≡◌, ◌≤◌, ◌∷◌, [], ℕ, List, true, IfOk, OnOk, decimal, length, map};
ghost use Rattle.std.specs.List.{AllByRecursion};
ghost use Rattle.std.specs.Str.{is_utf8};
ghost use Rattle.byte_message.specs.Limits.{longest_chunk};
ghost use Rattle.yxml.specs.Normal.{IsNormal};
ghost use Rattle.xml_codec.specs.Data.{list_body};
ghost use Rattle.yxml.specs.Spelling.{Spells, yxml};
ghost use Rattle.pide_base.specs.Ids.{IsId};
ghost use Rattle.message_values.specs.declared.editor_message.EditorMessage.TheVariants as asks;
ghost use Rattle.message_values.specs.declared.item.Item.{Item};
ghost use Rattle.message_values.specs.declared.mode.Mode.TheVariants.{Serve};
ghost use Rattle.message_values.specs.Bodies.{item_body};
ghost use Rattle.message_values.specs.Fits.{FitsItem};
ghost use Rattle.made_document.specs.Asking.{Adds, Ask};
ghost use Rattle.made_document.specs.Messages.{last_version, made_messages};
ghost use Rattle.made_document.specs.Texts.{most_nodes};

use crate::bodies::{first_items, second_items};
use byte_message::{append_message, one_reading, written_is_read};
use itoa::Buffer;
use message_values::a_message_is_asked_where_it_is_spelled;
use sqlite_items::Items;
use std::alloc::{AllocError, Global};
use xml_codec::{bodies_are_normal, bodies_nest, put_list};
use yxml::{Body, write_body};

/// The version that is settled.
const LAST_VERSION: u64 = 2;

/// The chunk of items with these bodies.
fn items_chunk(alloc: Global, items: Items<Body>) -> Result<Items<u8>, AllocError>
    requires normal { IsNormal (list_body items) }
    requires short { length (yxml (list_body items)) ≤ longest_chunk }
    ensures spells { IfOk result (λ chunk. Spells chunk (list_body items)) }
    ensures utf8 { IfOk result (λ chunk. is_utf8 chunk ≡ true) }
    ensures short { IfOk result (λ chunk. length chunk ≤ longest_chunk) }
{
    let body = put_list(alloc, items)?;
    let text = write_body(alloc, &body);
    drop(body);
    let bytes = text?.into_bytes();
    Ok(Items::from_vec(bytes))
}

/// The chunks of a function and a version.
fn chunks_of(alloc: Global, function: &str, version: u64) -> Result<Vec<Items<u8>>, AllocError>
    ensures { IfOk result (λ chunks. chunks.items ≡ function.now ∷ decimal version ∷ []) }
{
    let mut buffer = Buffer::new();
    let mut chunks = Vec::new(alloc);
    chunks.push(Items::from_slice(alloc, function.as_bytes())?)?;
    chunks.push(Items::from_slice(alloc, buffer.format(version).as_bytes())?)?;
    Ok(chunks)
}

/// Adds an update with items of these bodies.
fn add_update(
    alloc: Global,
    out: &mut Vec<u8>,
    version: u64,
    items: Items<Body>,
) -> Result<(), AllocError>
    requires id { IsId version }
    requires normal { IsNormal (list_body items) }
    requires short { length (yxml (list_body items)) ≤ longest_chunk }
    ensures { OnOk result ((all : List Item) → items ≡ map item_body all
        → AllByRecursion FitsItem all
        → Adds Serve out.old.items out.new.items (asks.Update version all [])) }
{
    a_message_is_asked_where_it_is_spelled();
    let mut chunks = chunks_of(alloc, "Session.update", version)?;
    chunks.push(items_chunk(alloc, items)?)?;
    append_message(out, chunks.as_slice())
}

/// Adds a settle.
fn add_settle(alloc: Global, out: &mut Vec<u8>, version: u64) -> Result<(), AllocError>
    requires id { IsId version }
    ensures { OnOk result (Adds Serve out.old.items out.new.items (asks.Settle version)) }
{
    a_message_is_asked_where_it_is_spelled();
    let chunks = chunks_of(alloc, "Session.settle", version)?;
    append_message(out, chunks.as_slice())
}

/// The bytes of the messages that make a document of so many nodes, 1 to 1,000.
pub fn made_bytes(alloc: Global, count: u32) -> Result<Vec<u8>, AllocError>
    requires few { count ≤ most_nodes }
    ensures { IfOk result (λ bytes. Ask Serve bytes.items (made_messages count)) }
{
    written_is_read();
    bodies_are_normal();
    bodies_nest();
    let mut bytes = Vec::new(alloc);
    add_update(alloc, &mut bytes, 1, first_items(alloc, count as u64)?)?;
    add_update(
        alloc,
        &mut bytes,
        LAST_VERSION,
        second_items(alloc, count as u64)?,
    )?;
    add_settle(alloc, &mut bytes, LAST_VERSION)?;
    Ok(bytes)
}
