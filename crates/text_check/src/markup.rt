//! What a text reports.
ghost use Rattle.std.specs.Prelude.{◌≡◌, map, IfOk};
ghost use Rattle.buffer_rules.specs.Cuts.{command_ranges};
ghost use Rattle.text_check.specs.OneText.{markup_of};
ghost use Rattle.text_check.specs.Headings.{begins, heading_of};

use crate::heading::Heading;
use buffer_laws::places_law;
use buffer_rules::ids_law;
use joined_results::both;
use language::Language;
use node_check::{NodeRun, command_places, run_commands};
use pide_base::Range;
use report_markup::Report;
use std::alloc::{AllocError, Global};

/// What checking the text from nothing reports, in report order; ranges count its scalars. The
/// commands are worked on one after the other, forks with the commands that they are of.
pub fn markup_of<L: Language>(
    alloc: Global,
    language: &L,
    text: &[char],
) -> Result<Vec<Report>, AllocError>
    ensures { IfOk result (λ reports. reports.items ≡ markup_of L.lang text.now) }
{
    ids_law();
    places_law();
    let (ranges, begins) = begun(alloc, language, text)?;
    let run = run_commands(alloc, language, text, &ranges, begins)?;
    let NodeRun { reports, behind } = run;
    drop(behind);
    Ok(reports)
}

/// The places of the text's commands, and the state in which the first of them begins.
fn begun<L: Language>(
    alloc: Global,
    language: &L,
    text: &[char],
) -> Result<(Vec<Range>, L::State), AllocError>
    ensures places { IfOk result (λ begun. begun.0.items ≡ command_ranges text.now
        (map (λ pair. pair.0) (heading_of text.now).aliases.pairs)) }
    ensures begins { IfOk result (λ begun. begun.1 ≡ begins L.lang (heading_of text.now)) }
{
    let heading = Heading::of(alloc, text)?;
    let places = command_places(alloc, text, heading.aliases.pairs.get().names());
    let begins = heading.begins(alloc, language);
    drop(heading);
    let begun = both(places, begins)?;
    Ok(begun)
}
