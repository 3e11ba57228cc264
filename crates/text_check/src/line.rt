//! A report as a line.
ghost use Rattle.std.specs.Prelude.{◌≡◌, ◌++◌, decimal, OnOk, string_bytes};
ghost use Rattle.std.specs.List.{flat_map};
ghost use Rattle.text_check.specs.Lines.{report_line, place_text, property_text, said_text, text_part};

use itoa::Buffer;
use report_markup::{Property, Report};
use std::alloc::AllocError;

/// Adds the line of a report: where it stands, in scalars, its kind, its properties, its text and
/// the end of the line. For want of memory some of it may have been added.
pub fn write_line(out: &mut String, report: &Report) -> Result<(), AllocError>
    ensures { OnOk result (string_bytes out.new ≡ string_bytes out.old ++ report_line report.now) }
{
    write_place(out, report)?;
    write_said(out, report)
}

/// Adds where a report stands.
fn write_place(out: &mut String, report: &Report) -> Result<(), AllocError>
    ensures { OnOk result (string_bytes out.new
        ≡ string_bytes out.old ++ place_text report.now) }
{
    write_number(out, report.range.start)?;
    out.push_str("-")?;
    write_number(out, report.range.stop)
}

/// Adds what a report says of its range.
fn write_said(out: &mut String, report: &Report) -> Result<(), AllocError>
    ensures { OnOk result (string_bytes out.new
        ≡ string_bytes out.old ++ said_text report.now) }
{
    out.push_str(" ")?;
    out.push_str(report.kind.word())?;
    write_properties(out, report.properties.as_slice())?;
    write_text(out, report.text.as_str())?;
    out.push_str("\n")
}

fn write_number(out: &mut String, number: usize) -> Result<(), AllocError>
    ensures { OnOk result (string_bytes out.new ≡ string_bytes out.old ++ decimal number) }
{
    let mut buffer = Buffer::new();
    out.push_str(buffer.format(number))
}

fn write_properties(out: &mut String, properties: &[Property]) -> Result<(), AllocError>
    ensures { OnOk result (string_bytes out.new
        ≡ string_bytes out.old ++ flat_map property_text properties.now) }
{
    for property in properties {
        write_property(out, property)?;
    }
    Ok(())
}

fn write_property(out: &mut String, property: &Property) -> Result<(), AllocError>
    ensures { OnOk result (string_bytes out.new
        ≡ string_bytes out.old ++ property_text property.now) }
{
    out.push_str(" ")?;
    out.push_str(property.key.word())?;
    out.push_str("=")?;
    out.push_str(property.value.as_str())
}

/// Adds the text of a report, unless it is empty.
fn write_text(out: &mut String, text: &str) -> Result<(), AllocError>
    ensures { OnOk result (string_bytes out.new ≡ string_bytes out.old ++ text_part text.now) }
{
    if text.is_empty() {
        return Ok(());
    }
    out.push_str(": ")?;
    out.push_str(text)
}
