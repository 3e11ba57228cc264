//! Reports (`report_markup`): their order, and what is written of them.
use crate::drawn_reports::{kind_of, plain, range_of, report_of};
use crate::readable::put_readable;
use crate::symbol_numbers::put_in_symbols;
use crate::taken_snapshots::Taking;
use pide_base::Range;
use report_markup::{
    PlainText, Report, are_treelike, compare_at, is_plain, moved_range, write_report, write_reports,
};
use script_lines::{Fault, number, place};
use std::alloc::{AllocError, Global};
use std::cmp::Ordering;
use std::mem;

/// The reports that are drawn, and the snapshot that is taken of them.
#[derive(Drop)]
pub(crate) struct Reporting {
    reports: Vec<Report>,
    taking: Taking,
}

/// The reports, reversed and then sorted.
fn sorted_reversed(reports: Vec<Report>) -> Result<Vec<Report>, AllocError> {
    let mut sorted = reports;
    sorted.as_mut_slice().reverse();
    sorted.sort()?;
    Ok(sorted)
}

/// What YXML is written of the reports.
fn put_yxml(alloc: Global, reports: &[Report], out: &mut String) -> Result<(), AllocError> {
    let mut yxml = String::new(alloc);
    write_reports(&mut yxml, reports)?;
    put_readable(out, yxml.as_str())
}

/// The report at this range, behind a text.
fn put_behind(
    alloc: Global,
    text: &str,
    range: Range,
    report: &Report,
    out: &mut String,
) -> Result<(), AllocError> {
    let mut yxml = String::from_str(alloc, text)?;
    write_report(&mut yxml, range, report)?;
    put_readable(out, yxml.as_str())
}

fn order_word(order: Ordering) -> &'static str {
    match order {
        Ordering::Less => "less",
        Ordering::Equal => "equal",
        Ordering::Greater => "greater",
    }
}

/// Whether the one is less than the other, whether they are other than each other, and their order
/// where each stands at the range of the other.
fn put_compared(out: &mut String, one: &Report, other: &Report) -> Result<(), AllocError> {
    let is_less = one < other;
    let is_other = one != other;
    let order = compare_at(one.range, other, other.range, one);
    write!(out, "{is_less} {is_other} {}", order_word(order))
}

/// Whether a text is plain that a word and the scalar of a number make.
fn put_plain(
    alloc: Global,
    before: &str,
    scalar: Option<u64>,
    behind: &str,
    out: &mut String,
) -> Result<(), Fault> {
    let mut text = String::from_str(alloc, before)?;
    match scalar {
        None => {}
        Some(5) => text.push('\u{5}')?,
        Some(6) => text.push('\u{6}')?,
        Some(_) => return Err(Fault::Line),
    }
    text.push_str(behind)?;
    Ok(write!(out, "{}", is_plain(text.as_str()))?)
}

/// A text that is shared, and whether it is empty; then whether no text is.
fn put_shared(alloc: Global, text: &str, out: &mut String) -> Result<(), Fault> {
    let text = plain(alloc, text)?;
    let shared = text.share()?;
    write!(out, "{} {} ", shared.as_str(), shared.is_empty())?;
    Ok(write!(out, "{}", PlainText::empty().is_empty())?)
}

fn put_treelike(out: &mut String, one: Range, other: Range) -> Result<(), Fault> {
    Ok(write!(out, "{}", are_treelike(one, other))?)
}

impl Reporting {
    pub(crate) fn new(alloc: Global) -> Reporting {
        Reporting {
            reports: Vec::new(alloc),
            taking: Taking::new(alloc),
        }
    }

    pub(crate) fn answer(
        &mut self,
        alloc: Global,
        words: &[&str],
        out: &mut String,
    ) -> Result<(), Fault> {
        let [verb, words @ ..] = words else {
            return Err(Fault::Line);
        };
        match *verb {
            "put" => self.put(alloc, words),
            "part" => self.part(alloc, words),
            "sort-reversed" => self.sort_reversed(alloc),
            "in-symbols" => self.put_in_symbols(alloc, words, out),
            "insert" | "remove" => self.taking.edit(alloc, *verb, words),
            _ => self.answer_shown(alloc, *verb, words, out),
        }
    }

    fn answer_shown(
        &self,
        alloc: Global,
        verb: &str,
        words: &[&str],
        out: &mut String,
    ) -> Result<(), Fault> {
        match (verb, words) {
            ("yxml", []) => Ok(put_yxml(alloc, &self.reports, out)?),
            ("compare", []) => self.put_compared(out),
            ("snapshot", []) => self.taking.put_shown(alloc, out),
            ("pending", []) => self.taking.put_pending(alloc, out),
            ("moved", [by, text]) => self.put_moved(alloc, place(*by)?, *text, out),
            _ => answer_other(alloc, verb, words, out),
        }
    }

    fn put(&mut self, alloc: Global, words: &[&str]) -> Result<(), Fault> {
        Ok(self.reports.push(report_of(alloc, words)?)?)
    }

    /// The reports that were drawn so far.
    fn taken(&mut self, alloc: Global) -> Vec<Report> {
        mem::replace(&mut self.reports, Vec::new(alloc))
    }

    /// The reports are reversed and then sorted.
    fn sort_reversed(&mut self, alloc: Global) -> Result<(), Fault> {
        let sorted = sorted_reversed(self.taken(alloc))?;
        drop(mem::replace(&mut self.reports, sorted));
        Ok(())
    }

    /// A part of an execution at a range is finished with the reports so far, or open.
    fn part(&mut self, alloc: Global, words: &[&str]) -> Result<(), Fault> {
        let [exec, range, state] = words else {
            return Err(Fault::Line);
        };
        let (exec, range) = (number(*exec)?, range_of(*range)?);
        match *state {
            "finished" => {
                let reports = self.taken(alloc);
                self.taking.add(exec, range, Some(reports))
            }
            "open" => self.taking.add(exec, range, None),
            _ => Err(Fault::Line),
        }
    }

    fn put_in_symbols(&self, alloc: Global, words: &[&str], out: &mut String) -> Result<(), Fault> {
        let [text] = words else {
            return Err(Fault::Line);
        };
        Ok(put_in_symbols(alloc, *text, &self.reports, out)?)
    }

    fn put_compared(&self, out: &mut String) -> Result<(), Fault> {
        let [one, other, ..] = self.reports.as_slice() else {
            return Err(Fault::Line);
        };
        Ok(put_compared(out, one, other)?)
    }

    /// The range of the first report, so many places further on, and the report there, behind a
    /// text.
    fn put_moved(
        &self,
        alloc: Global,
        by: usize,
        text: &str,
        out: &mut String,
    ) -> Result<(), Fault> {
        let Some(report) = self.reports.first() else {
            return Err(Fault::Line);
        };
        let most = usize::MAX - by;
        if report.range.start > most || report.range.stop > most {
            return Err(Fault::Line);
        }
        let range = moved_range(by, report.range);
        write!(out, "{}-{} ", range.start, range.stop)?;
        Ok(put_behind(alloc, text, range, report, out)?)
    }
}

/// The answer to a call that no drawn report is asked for.
fn answer_other(alloc: Global, verb: &str, words: &[&str], out: &mut String) -> Result<(), Fault> {
    match (verb, words) {
        ("kind", [word]) => Ok(out.push_str(kind_of(*word)?.word())?),
        ("treelike", [one, other]) => put_treelike(out, range_of(*one)?, range_of(*other)?),
        ("share", [text]) => put_shared(alloc, *text, out),
        ("plain", [text]) => put_plain(alloc, *text, None, "", out),
        ("plain", [text, scalar, behind]) => {
            put_plain(alloc, *text, Some(number(*scalar)?), *behind, out)
        }
        _ => Err(Fault::Line),
    }
}
