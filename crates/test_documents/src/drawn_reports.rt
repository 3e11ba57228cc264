//! Reports as scripts draw them: a range, a kind, and words as `theory=A` and `name=l`; any other
//! word is the report's text.
use pide_base::Range;
use report_markup::{PlainText, Property, PropertyKey, Report, ReportKind, is_plain};
use script_lines::{Fault, range};
use sqlite_items::Items;
use std::alloc::Global;

/// The kind that a word tells.
pub(crate) fn kind_of(word: &str) -> Result<ReportKind, Fault> {
    match word {
        "command" => Ok(ReportKind::Command),
        "theory" => Ok(ReportKind::Theory),
        "import" => Ok(ReportKind::Import),
        "def" => Ok(ReportKind::Def),
        "formula" => Ok(ReportKind::Formula),
        "error" => Ok(ReportKind::Error),
        "proved" => Ok(ReportKind::Proved),
        "ref" => Ok(ReportKind::Ref),
        "state" => Ok(ReportKind::State),
        "loaded" => Ok(ReportKind::Loaded),
        "suggest" => Ok(ReportKind::Suggest),
        _ => Err(Fault::Line),
    }
}

/// The range that a word as `3-7` tells.
pub(crate) fn range_of(word: &str) -> Result<Range, Fault> {
    let (start, stop) = range(word)?;
    Ok(Range { start, stop })
}

/// A text that is no markup.
pub(crate) fn plain(alloc: Global, text: &str) -> Result<PlainText, Fault> {
    if !is_plain(text) {
        return Err(Fault::Line);
    }
    Ok(PlainText::from_str(alloc, text)?)
}

/// The property that a word tells, if it tells one.
fn property(alloc: Global, word: &str) -> Result<Option<Property>, Fault> {
    let (key, value) = word.split_once('=').unwrap_or(("", word));
    let key = match key {
        "theory" => PropertyKey::Theory,
        "name" => PropertyKey::Name,
        _ => return Ok(None),
    };
    let value = plain(alloc, value)?;
    Ok(Some(Property { key, value }))
}

fn add_properties(
    alloc: Global,
    properties: &mut Items<Property>,
    words: &[&str],
) -> Result<(), Fault> {
    for word in words {
        if let Some(property) = property(alloc, *word)? {
            properties.push(property)?;
        }
    }
    Ok(())
}

fn properties_of(alloc: Global, words: &[&str]) -> Result<Items<Property>, Fault> {
    let mut properties = Items::new(alloc);
    add_properties(alloc, &mut properties, words)?;
    Ok(properties)
}

/// The last word that is no property, or no text.
fn text_of<'a>(words: &[&'a str]) -> &'a str {
    match words {
        [.., last] if !last.starts_with("theory=") && !last.starts_with("name=") => *last,
        _ => "",
    }
}

/// The report that words draw.
pub(crate) fn report_of(alloc: Global, words: &[&str]) -> Result<Report, Fault> {
    let [range, kind, more @ ..] = words else {
        return Err(Fault::Line);
    };
    let properties = properties_of(alloc, more)?;
    Ok(Report {
        range: range_of(*range)?,
        kind: kind_of(*kind)?,
        properties,
        text: plain(alloc, text_of(more))?,
    })
}
