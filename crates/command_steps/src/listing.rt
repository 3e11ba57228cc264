//! The facts of a blob.
ghost use Rattle.isar_rules.specs.BlobLines.{listed_facts};
ghost use Rattle.command_steps.specs.Listing.{Takes, Tells};

use crate::fact::{ListedFact, fact_in};
use crate::fault::BlobFault;
use crate::line::{cut_line, is_gap_line};
use sqlite_items::Items;
use std::alloc::Global;

/// Adds the fact of the line of this number, if it is not blank.
fn take_line(
    alloc: Global,
    facts: &mut Items<ListedFact>,
    number: usize,
    line: &[char],
) -> Result<(), BlobFault>
    ensures { Takes number line.now facts.old facts.new result }
{
    if is_gap_line(line) {
        return Ok(());
    }
    match fact_in(alloc, line)? {
        Some(fact) => {
            facts.push(fact)?;
            Ok(())
        }
        None => Err(BlobFault::BadLine(number)),
    }
}

/// The facts that a blob of this text lists, in its order; blank lines are skipped. BadLine tells
/// the first line that is neither, from 1; NoMemory comes where memory runs out.
pub fn facts_of(alloc: Global, text: &[char]) -> Result<Items<ListedFact>, BlobFault>
    ensures { Tells (listed_facts text.now) result }
{
    let mut facts = Items::new(alloc);
    let mut number = 1;
    let mut rest = text;
    'lines: loop {
        let (line, behind) = cut_line(rest);
        take_line(alloc, &mut facts, number, line)?;
        let Some(more) = behind else {
            return Ok(facts);
        };
        rest = more;
        number += 1;
    }
}
