//! Reports back at ranges in scalars.
ghost use Rattle.std.specs.Prelude.{◌≡◌, map, IfOk};
ghost use Rattle.symbol_markup.specs.Told.{at_scalars};

use crate::places::SymbolPlaces;
use joined_results::both;
use pide_base::Range;
use report_markup::{PlainText, Property, Report};
use sqlite_items::Items;
use std::alloc::{AllocError, Global};

/// Reports that count the symbols of the text, each at its range in scalars. They are copied; time
/// is linear in the text and in what is copied.
pub fn reports_in_scalars(
    alloc: Global,
    text: &[char],
    reports: &[Report],
) -> Result<Items<Report>, AllocError>
    ensures { IfOk result (λ placed. placed ≡ map (at_scalars text.now) reports.now) }
{
    let places = SymbolPlaces::of(alloc, text)?;
    let mut placed = Vec::new(alloc);
    'reports: for report in reports {
        placed.push(report_at(alloc, report, places.scalars(report.range))?)?;
    }
    Ok(Items::from_vec(placed))
}

/// The same report at another range.
fn report_at(alloc: Global, report: &Report, range: Range) -> Result<Report, AllocError>
    ensures { IfOk result (λ placed. placed ≡ record report.now { range = range }) }
{
    let (properties, text) = both(
        copied(alloc, report.properties.as_slice()),
        PlainText::from_str(alloc, report.text.as_str()),
    )?;
    Ok(Report {
        range,
        kind: report.kind,
        properties,
        text,
    })
}

fn copied(alloc: Global, properties: &[Property]) -> Result<Items<Property>, AllocError>
    ensures { IfOk result (λ copies. copies ≡ properties.now) }
{
    let mut copies = Vec::new(alloc);
    'properties: for property in properties {
        let value = PlainText::from_str(alloc, property.value.as_str())?;
        copies.push(Property {
            key: property.key,
            value,
        })?;
    }
    Ok(Items::from_vec(copies))
}
