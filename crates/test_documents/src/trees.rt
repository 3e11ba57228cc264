//! Markup trees (`report_markup`): what is kept, what a range is refused for, and what contains a
//! range.
use crate::drawn_reports::{range_of, report_of};
use pide_base::Range;
use report_markup::{AddError, MarkupTree, Report};
use script_lines::Fault;
use std::alloc::{AllocError, Global};

/// A tree under calls.
#[derive(Drop)]
pub(crate) struct Tree {
    markup: MarkupTree,
}

fn put_range(out: &mut String, range: Range) -> Result<(), AllocError> {
    write!(out, "{}-{} ", range.start, range.stop)
}

fn put_ranges(out: &mut String, reports: &[&Report]) -> Result<(), AllocError> {
    for report in reports {
        put_range(out, report.range)?;
    }
    Ok(())
}

fn put_kinds(out: &mut String, reports: &[&Report]) -> Result<(), AllocError> {
    for report in reports {
        write!(out, "{} ", report.kind.word())?;
    }
    Ok(())
}

impl Tree {
    pub(crate) fn new() -> Tree {
        Tree {
            markup: MarkupTree::new(),
        }
    }

    pub(crate) fn answer(
        &mut self,
        alloc: Global,
        words: &[&str],
        out: &mut String,
    ) -> Result<(), Fault> {
        match words {
            [verb] if *verb == "list" => {
                Ok(put_ranges(out, self.markup.list(alloc)?.as_slice())?)
            }
            [verb] if *verb == "kinds" => Ok(put_kinds(out, self.markup.list(alloc)?.as_slice())?),
            [verb, range] if *verb == "around" => {
                let around = self.markup.cumulate(alloc, range_of(*range)?)?;
                Ok(put_ranges(out, around.as_slice())?)
            }
            [verb, report @ ..] if *verb == "add" => self.add(
                alloc,
                report_of(alloc, report)?,
                out,
            ),
            _ => Err(Fault::Line),
        }
    }

    fn add(&mut self, alloc: Global, report: Report, out: &mut String) -> Result<(), Fault> {
        match self.markup.add(alloc, report) {
            Ok(()) => Ok(out.push_str("kept")?),
            Err(AddError::Overlap { with }) => {
                out.push_str("crosses ")?;
                Ok(put_range(out, with)?)
            }
            Err(AddError::NoMemory) => Err(Fault::NoMemory),
        }
    }
}
