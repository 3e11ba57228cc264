//! Reports written as YXML, with no tree in between.
ghost use Rattle.std.specs.Prelude.{◌≡◌, ◌++◌, ◌∷◌, [], ℕ, List, map, decimal, OnOk, string_bytes};
ghost use Rattle.std.specs.List.{flat_map, AllByRecursion};
ghost use Rattle.yxml.specs.Normal.{IsNormal, IsAttribute, IsPlain};
ghost use Rattle.yxml.specs.Spelling.{yxml, attribute_spelling};
ghost use Rattle.report_markup.specs.Element.{element, property_attribute};

use crate::property::Property;
use crate::report::Report;
use itoa::Buffer;
use pide_base::Range;
use std::alloc::AllocError;

/// Adds the YXML of a report that stands at `range` instead of its own. What numbers the range
/// has, scalars or symbols and of which text, is the caller's. For want of memory some of it may
/// have been added.
pub fn write_report(out: &mut String, range: Range, report: &Report) -> Result<(), AllocError>
    ensures bytes { OnOk result (string_bytes out.new ≡ string_bytes out.old
        ++ yxml (element (record report.now { range = range }) ∷ [])) }
    ensures normal { OnOk result (IsNormal (element (record report.now { range = range }) ∷ [])) }
{
    out.push_str("\u{5}\u{6}")?;
    out.push_str(report.kind.word())?;
    write_number(out, "\u{6}offset=", range.start)?;
    write_number(out, "\u{6}end_offset=", range.stop)?;
    write_properties(out, report.properties.as_slice())?;
    out.push_str("\u{5}")?;
    out.push_str(report.text.as_str())?;
    out.push_str("\u{5}\u{6}\u{5}")
}

/// Adds the YXML of the reports, one after the other, each at its own range.
pub fn write_reports(out: &mut String, reports: &[Report]) -> Result<(), AllocError>
    ensures bytes { OnOk result (string_bytes out.new
        ≡ string_bytes out.old ++ yxml (map element reports.now)) }
{
    for report in reports {
        write_report(out, report.range, report)?;
    }
    Ok(())
}

/// Adds a key's bytes and a number in decimal.
fn write_number(out: &mut String, key: &str, number: usize) -> Result<(), AllocError>
    ensures { OnOk result (string_bytes out.new
        ≡ string_bytes out.old ++ key.now ++ decimal number) }
{
    let mut buffer = Buffer::new();
    out.push_str(key)?;
    out.push_str(buffer.format(number))
}

fn write_properties(out: &mut String, properties: &[Property]) -> Result<(), AllocError>
    ensures bytes { OnOk result (string_bytes out.new ≡ string_bytes out.old
        ++ flat_map attribute_spelling (map property_attribute properties.now)) }
    ensures plain { OnOk result
        (AllByRecursion IsAttribute (map property_attribute properties.now)) }
{
    for property in properties {
        write_property(out, property)?;
    }
    Ok(())
}

fn write_property(out: &mut String, property: &Property) -> Result<(), AllocError>
    ensures bytes { OnOk result (string_bytes out.new
        ≡ string_bytes out.old ++ attribute_spelling (property_attribute property.now)) }
    ensures plain { OnOk result (IsAttribute (property_attribute property.now)) }
{
    out.push_str("\u{6}")?;
    out.push_str(property.key.word())?;
    out.push_str("=")?;
    out.push_str(property.value.as_str())
}
