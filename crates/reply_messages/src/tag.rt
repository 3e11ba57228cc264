//! Tags of reports: a kind, a range and properties.
ghost use Rattle.std.specs.Prelude.{◌≡◌, ◌≢◌, ◌++◌, ℕ, List, map, decimal, IfOk, MatchOption};
ghost use Rattle.std.specs.List.{AllByRecursion, flat_map};
ghost use Rattle.yxml.specs.Normal.{Lacks};
ghost use Rattle.report_markup.specs.Words.{kind_word};
ghost use Rattle.reply_messages.specs.Fits.{FitsProperty, IsWide};
ghost use Rattle.reply_messages.specs.Found.{Finds};
ghost use Rattle.reply_messages.specs.Marks.{Begins};
ghost use Rattle.reply_messages.specs.Tags.{FitsTag, tag_bytes, property_bytes, properties_bytes, report_kind_named, report_kinds};

use crate::element::{after, cut};
use crate::number::number_at;
use crate::text::text_at;
use pide_base::Range;
use report_markup::{Property, PropertyKey, ReportKind};
use sqlite_items::Items;
use std::alloc::{AllocError, Global};

/// What stands in a report's tag.
#[derive(Debug, Drop)]
pub(crate) struct Tag {
    pub(crate) kind: ReportKind,
    pub(crate) range: Range,
    pub(crate) properties: Items<Property>,
}

/// All kinds of reports.
const KINDS: [ReportKind; 11] = [
    ReportKind::Command,
    ReportKind::Theory,
    ReportKind::Import,
    ReportKind::Def,
    ReportKind::Formula,
    ReportKind::Error,
    ReportKind::Proved,
    ReportKind::Ref,
    ReportKind::State,
    ReportKind::Loaded,
    ReportKind::Suggest,
];

fn kinds() -> &'static [ReportKind]
    ensures { result.now ≡ report_kinds }
{
    &KINDS
}

/// The kind whose word this is, or None where it is no kind's.
fn kind_named(name: &[u8]) -> Option<ReportKind>
    ensures { result ≡ report_kind_named name.now }
{
    let kinds = kinds();
    'kinds: for kind in kinds {
        if kind.word().as_bytes() == name {
            return Some(*kind);
        }
    }
    None
}

/// A number after a key, and what follows the number: nothing, or what begins with a byte 6.
#[derive(Clone, Copy)]
struct Offset<'a> {
    number: usize,
    rest: &'a [u8],
}

/// The number after the key that the text begins with.
fn offset_after<'a>(text: &'a [u8], key: &str) -> Option<Offset<'a>>
    ensures { MatchOption result
        ((n : ℕ) (rest : List ℕ) → IsWide n → Begins 6 rest
        → text.now ≢ key.now ++ (decimal n ++ rest))
        (λ offset. IsWide offset.number × Begins 6 offset.rest.now
        × (text.now ≡ key.now ++ (decimal offset.number ++ offset.rest.now))) }
{
    let Some(behind) = after(text, key) else {
        return None;
    };
    let (digits, rest) = cut(behind, 6);
    let Some(number) = number_at(digits) else {
        return None;
    };
    let number = number as usize;
    Some(Offset { number, rest })
}

/// The property of a key and a value with a `=` between them.
fn property_at(alloc: Global, bytes: &[u8]) -> Result<Option<Property>, AllocError>
    ensures { IfOk result (λ found. Finds property_bytes FitsProperty bytes.now found) }
{
    if let Some(value) = after(bytes, "theory=") {
        return property_of(alloc, PropertyKey::Theory, value);
    }
    match after(bytes, "name=") {
        Some(value) => property_of(alloc, PropertyKey::Name, value),
        None => Ok(None),
    }
}

/// The property of this key and value.
fn property_of(
    alloc: Global,
    key: PropertyKey,
    value: &[u8],
) -> Result<Option<Property>, AllocError>
    ensures { IfOk result (λ found. MatchOption found
        ((p : Property) → FitsProperty p → p.value ≢ value.now)
        (λ p. FitsProperty p × (p.key ≡ key) × (p.value ≡ value.now))) }
{
    match text_at(alloc, value)? {
        Some(value) => Ok(Some(Property { key, value })),
        None => Ok(None),
    }
}

/// The properties, each behind a byte 6.
fn properties_at(alloc: Global, text: &[u8]) -> Result<Option<Items<Property>>, AllocError>
    requires begins { Begins 6 text.now }
    ensures { IfOk result (λ found.
        Finds properties_bytes (AllByRecursion FitsProperty) text.now found) }
{
    let mut found = Items::new(alloc);
    let mut rest = text;
    'properties: while let Some(behind) = after(rest, "\u{6}") {
        let (property, more) = cut(behind, 6);
        let Some(property) = property_at(alloc, property)? else {
            return Ok(None);
        };
        found.push(property)?;
        rest = more;
    }
    Ok(Some(found))
}

/// What the tag tells.
pub(crate) fn tag_at(alloc: Global, tag: &[u8]) -> Result<Option<Tag>, AllocError>
    ensures { IfOk result (λ found. Finds tag_bytes FitsTag tag.now found) }
{
    let (kind, rest) = cut(tag, 6);
    let Some(kind) = kind_named(kind) else {
        return Ok(None);
    };
    let Some(start) = offset_after(rest, "\u{6}offset=") else {
        return Ok(None);
    };
    let Some(stop) = offset_after(start.rest, "\u{6}end_offset=") else {
        return Ok(None);
    };
    let Some(properties) = properties_at(alloc, stop.rest)? else {
        return Ok(None);
    };
    let range = Range {
        start: start.number,
        stop: stop.number,
    };
    Ok(Some(Tag {
        kind,
        range,
        properties,
    }))
}
