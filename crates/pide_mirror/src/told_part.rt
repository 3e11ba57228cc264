//! What a reply tells of a part.
ghost use Rattle.std.specs.Prelude.{◌≡◌, Bool, map, nat_le, ◌&&◌, length, Some, None, IfOk, if◌then◌else◌};
ghost use Rattle.std.specs.List.{list_all};
ghost use Rattle.outer_syntax.specs.Symbols.{symbols_of};
ghost use Rattle.message_values.specs.declared.protocol.Protocol.TheVariants as counting;
ghost use Rattle.mirror_rules.specs.Reports.{lies_in, in_scalars};
ghost use Rattle.pide_mirror.specs.Places.{takes, told_at};
ghost use Rattle.pide_mirror.specs.Tables.{as_report};

use crate::place::{Place, Reports};
use doc_nodes::Shared;
use message_values::Protocol;
use pide_base::Part;
use report_markup::Report;
use sqlite_items::Items;
use std::alloc::{AllocError, Global};
use symbol_markup::{SymbolPlaces, reports_in_scalars};

/// A part that is finished, with its reports at ranges that count as the protocol does.
#[derive(Drop)]
pub struct ToldPart {
    pub(crate) protocol: Protocol,
    pub(crate) part: Part,
    pub(crate) reports: Reports,
}

/// Whether all lie in a text of so many scalars.
fn lie_within(reports: &[Report], end: usize) -> bool
    ensures { result
        ≡ list_all (λ r. nat_le r.range.start r.range.stop && nat_le r.range.stop end) reports.now }
{
    reports.iter().all(|report| report.range.start <= report.range.stop && report.range.stop <= end)
}

/// Whether all lie in the text, where they count its symbols.
fn lie_on_symbols(alloc: Global, reports: &[Report], text: &[char]) -> Result<bool, AllocError>
    ensures { IfOk result (λ lie. lie
        ≡ list_all (λ r. lies_in counting.Symbols text.now r.range) reports.now) }
{
    let places = SymbolPlaces::of(alloc, text)?;
    let mut rest = reports;
    'reports: while let [report, more @ ..] = rest {
        let range = report.range;
        if range.start == 0 || range.stop < range.start || !places.has(range.stop) {
            return Ok(false);
        }
        rest = more;
    }
    Ok(true)
}

fn shared(alloc: Global, reports: Items<Report>) -> Result<Reports, AllocError>
    ensures { IfOk result (λ kept. kept ≡ reports) }
{
    match Shared::new(alloc, reports) {
        Ok(reports) => Ok(reports),
        Err(reports) => {
            drop(reports);
            Err(AllocError)
        }
    }
}

impl ToldPart {
    /// The part with these reports.
    pub fn new(
        alloc: Global,
        protocol: Protocol,
        part: Part,
        reports: Items<Report>,
    ) -> Result<ToldPart, AllocError>
        ensures { IfOk result (λ told. as_report told
            ≡ record { protocol = protocol; part = part; reports = reports }) }
    {
        Ok(ToldPart {
            protocol,
            part,
            reports: shared(alloc, reports)?,
        })
    }

    /// Whether all of it lies in a command's source.
    fn lies_in(&self, alloc: Global, source: &[char]) -> Result<bool, AllocError>
        ensures { IfOk result (λ lies. lies
            ≡ list_all (λ r. lies_in self.now.protocol source.now r.range) self.now.reports) }
    {
        let reports = self.reports.get().as_slice();
        match self.protocol {
            Protocol::Scalars => Ok(lie_within(reports, source.len())),
            Protocol::Symbols => lie_on_symbols(alloc, reports, source),
        }
    }

    /// Its reports at their ranges in scalars of the source.
    fn in_scalars(&self, alloc: Global, source: &[char]) -> Result<Reports, AllocError>
        ensures { IfOk result (λ reports. reports
            ≡ map (in_scalars self.now.protocol source.now) self.now.reports) }
    {
        match self.protocol {
            Protocol::Scalars => self.reports.copy(),
            Protocol::Symbols => {
                let reports = reports_in_scalars(alloc, source, self.reports.get().as_slice())?;
                shared(alloc, reports)
            }
        }
    }

    /// The command with it, or None where not all of it lies in the command's source.
    pub(crate) fn at(&self, alloc: Global, place: &Place) -> Result<Option<Place>, AllocError>
        ensures { IfOk result (λ made. made ≡ (if takes (as_report self.now) place.now
            then Some (told_at (as_report self.now) place.now) else None)) }
    {
        let source = place.source.get().as_slice();
        if !self.lies_in(alloc, source)? {
            return Ok(None);
        }
        let reports = self.in_scalars(alloc, source)?;
        match place.copy() {
            Ok(place) => Ok(Some(place.with(self.part.kind, reports))),
            Err(error) => {
                drop(reports);
                Err(error)
            }
        }
    }
}
