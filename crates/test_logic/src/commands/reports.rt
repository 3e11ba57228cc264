//! Reports of commands and texts of errors (`command_steps`), and the texts that they tell
//! (`command_steps`, `nj_syntax`).
use crate::logic::reading::known;
use crate::shared::{Told, put, scalars_of};
use command_steps::{
    Halt, announced, def_report, error_report, formula_in, formula_report, import_report,
    loaded_report, local_report, named_refusal, numbered_refusal, refusal, state_report,
    state_text, theory_report,
};
use isar_rules::Spot;
use joined_results::both;
use nj_formula::{Formula, Name};
use nj_syntax::formula_text;
use outer_syntax::lex_under;
use pide_base::Range;
use proof_state::Proof;
use report_markup::Report;
use script_lines::{Answer, Call, Fault};
use sqlite_items::Items;
use std::alloc::{AllocError, Global};

/// Answers a report of a name that stands at 3 to 5: its kind, the values of its properties, and its
/// text; or the range of one.
pub(crate) fn answer(alloc: Global, out: &mut String, call: &Call<'_>) -> Answer {
    match call.verb {
        "theory" => of_theory(alloc, out, spot(alloc, call.word(0)?), false),
        "theory-range" => of_theory(alloc, out, spot(alloc, call.word(0)?), true),
        "import" => of_import(alloc, out, spot(alloc, call.word(0)?)),
        "def" => of_def(alloc, out, call.word(0)?, call.word(1)?),
        "loaded" => of_loaded(alloc, out, call.place(0)?, spot(alloc, call.word(1)?)),
        "local" => of_local(alloc, out, Some(spot(alloc, call.word(0)?)?)),
        "no-local" => of_local(alloc, out, None),
        _ => of_source(alloc, out, call),
    }
}

/// Answers a report of a source: how many are `announced`, or an `error` or a `state` of a text.
fn of_source(alloc: Global, out: &mut String, call: &Call<'_>) -> Answer {
    match call.verb {
        "announced" => of_words(alloc, out, scalars_of(alloc, call.word(0)?)),
        "error" => put_report(out, error(alloc, call.word(0)?, call.word(1)?)),
        "error-range" => put_range(out, error(alloc, call.word(0)?, call.word(1)?)),
        "state" => put_report(out, state(alloc, call.word(0)?, call.word(1)?)),
        _ => of_formula(alloc, out, call),
    }
}

/// Answers of a formula: its report, its print, what is to be proved of it, or its fault.
fn of_formula(alloc: Global, out: &mut String, call: &Call<'_>) -> Answer {
    match call.verb {
        "formula" => report_of(alloc, out, known(alloc, call.word(0)?)),
        "print" => put(out, printed(alloc, known(alloc, call.word(0)?))),
        "prove" => put(out, proof_told(alloc, known(alloc, call.word(0)?))),
        "fault" => put(out, fault(alloc, scalars_of(alloc, call.word(0)?))),
        _ => of_refusal(alloc, out, call),
    }
}

/// Answers the text of a refusal: of a text, with a number behind it, or with a name.
fn of_refusal(alloc: Global, out: &mut String, call: &Call<'_>) -> Answer {
    match call.verb {
        "refusal" => put(out, refused(refusal(alloc, call.word(0)?))),
        "numbered-refusal" => {
            let number = call.place(0)?;
            put(out, refused(numbered_refusal(alloc, call.word(1)?, number)))
        }
        "named-refusal" => put(
            out,
            named(alloc, call.word(0)?, scalars_of(alloc, call.word(1)?)),
        ),
        _ => Err(Fault::Line),
    }
}

/// A text that stands at 3 to 5.
fn spot(alloc: Global, text: &str) -> Result<Spot, AllocError> {
    Ok(Spot {
        text: Items::from_vec(scalars_of(alloc, text)?),
        range: Range { start: 3, stop: 5 },
    })
}

/// What is reported.
type Reported = Result<Report, AllocError>;

/// Answers the report's kind, its properties' values, and its text in quotes.
fn put_report(out: &mut String, report: Reported) -> Answer {
    let report = report?;
    let put = put_parts(out, &report);
    drop(report);
    Ok(put?)
}

fn put_parts(out: &mut String, report: &Report) -> Result<(), AllocError> {
    out.push_str(report.kind.word())?;
    for property in report.properties.as_slice() {
        let value = property.value.as_str();
        write!(out, " {value}")?;
    }
    let text = report.text.as_str();
    write!(out, " '{text}'")
}

/// Answers the report's range.
fn put_range(out: &mut String, report: Reported) -> Answer {
    let report = report?;
    let range = report.range;
    drop(report);
    let start = range.start;
    let stop = range.stop;
    Ok(write!(out, "{start}-{stop}")?)
}

fn of_theory(
    alloc: Global,
    out: &mut String,
    name: Result<Spot, AllocError>,
    as_range: bool,
) -> Answer {
    let report = theory_report(alloc, &name?);
    if as_range {
        put_range(out, report)
    } else {
        put_report(out, report)
    }
}

fn of_import(alloc: Global, out: &mut String, name: Result<Spot, AllocError>) -> Answer {
    put_report(out, import_report(alloc, &name?))
}

fn of_def(alloc: Global, out: &mut String, theory: &str, name: &str) -> Answer {
    let (theory, name) = both(Name::new(alloc, theory), Name::new(alloc, name))?;
    let range = Range { start: 3, stop: 5 };
    put_report(out, def_report(alloc, &theory, &name, range))
}

fn of_loaded(
    alloc: Global,
    out: &mut String,
    count: usize,
    name: Result<Spot, AllocError>,
) -> Answer {
    put_report(out, loaded_report(alloc, &name?, count))
}

/// Answers how many reports there are of a local name.
fn of_local(alloc: Global, out: &mut String, name: Option<Spot>) -> Answer {
    put_count(out, local_report(alloc, &name))
}

/// Answers how many reports there are.
fn put_count(out: &mut String, reports: Result<Items<Report>, AllocError>) -> Answer {
    let reports = reports?;
    let count = reports.len();
    drop(reports);
    Ok(write!(out, "{count}")?)
}

/// Answers how many reports there are of the word of a command.
fn of_words(alloc: Global, out: &mut String, source: Result<Vec<char>, AllocError>) -> Answer {
    let source = source?;
    let tokens = lex_under(alloc, &source, &[])?;
    put_count(out, announced(alloc, &source, &tokens))
}

fn error(alloc: Global, source: &str, text: &str) -> Reported {
    let (source, text) = both(scalars_of(alloc, source), String::from_str(alloc, text))?;
    error_report(alloc, &source, text)
}

fn state(alloc: Global, source: &str, text: &str) -> Reported {
    let (source, text) = both(scalars_of(alloc, source), String::from_str(alloc, text))?;
    state_report(alloc, &source, text)
}

fn report_of(alloc: Global, out: &mut String, formula: Result<Formula, Fault>) -> Answer {
    let formula = formula?;
    let place = spot(alloc, "x")?;
    put_report(out, formula_report(alloc, &place, &formula))
}

/// The printed formula.
fn printed(alloc: Global, formula: Result<Formula, Fault>) -> Told {
    Ok(formula_text(alloc, &formula?)?)
}

/// The text of a proof of the formula.
fn proof_told(alloc: Global, formula: Result<Formula, Fault>) -> Told {
    let proof = Proof::start(formula?);
    let text = state_text(alloc, &proof);
    drop(proof);
    Ok(text?)
}

/// The text of a refusal.
fn refused(halt: Halt) -> Told {
    match halt {
        Halt::Refused(text) => Ok(text),
        Halt::NoMemory => Err(Fault::NoMemory),
    }
}

/// The text of a refusal with a name behind it.
fn named(alloc: Global, text: &str, name: Result<Vec<char>, AllocError>) -> Told {
    refused(named_refusal(alloc, text, name?.as_slice()))
}

/// The error of the content of a quoted text, or nothing where it is a formula.
fn fault(alloc: Global, content: Result<Vec<char>, AllocError>) -> Told {
    match formula_in(alloc, content?.as_slice()) {
        Ok(_) => Ok(String::new(alloc)),
        Err(halt) => refused(halt),
    }
}
