//! A language of numbers (`language`): a state is a number that tells of all that was run.
ghost use Rattle.std.specs.Prelude.{◌≡◌, IfOk, decimal, string_bytes};
ghost use Rattle.std.specs.Option.{option_copied};
ghost use Rattle.test_editor.specs.Tally.{counted, summed, imported, begun, run, is_forking};
ghost use Rattle.test_editor.specs.About.{about};

use crate::whole_reports::about;
use doc_nodes::NodeAliases;
use itoa::Buffer;
use language::{Answer, Imported, Imports, Language, Made};
use pide_base::{NodeName, Stop};
use report_markup::{PlainText, Report, ReportKind};
use sqlite_items::Items;
use std::alloc::{AllocError, Global};

/// Two texts that differ are almost never told by the same number. A command that begins with a `b`
/// forks.
pub(crate) struct Tally;

/// A number with another one behind it.
fn counted(number: u64, more: u64) -> u64
    ensures { result ≡ counted number more }
{
    (number % 997 * 31 + more % 997) % 997
}

/// A number with all of these scalars behind it.
fn summed(number: u64, scalars: &[char]) -> u64
    ensures { result ≡ summed number scalars.now }
{
    let mut sum = number;
    let mut rest = scalars;
    'scalars: while let [scalar, more @ ..] = rest {
        sum = counted(sum, u64::from(*scalar));
        rest = more;
    }
    sum
}

/// A number with the states of these imports behind it.
fn imported(number: u64, imports: &[Imported<u64>]) -> u64
    ensures { result ≡ imported number imports.now }
{
    let mut sum = number;
    let mut rest = imports;
    'imports: while let [import, more @ ..] = rest {
        sum = counted(sum, *import.state.get());
        rest = more;
    }
    sum
}

/// What a command makes of a state.
fn run(source: &[char], blob: Option<&[char]>, state: u64) -> u64
    ensures { result ≡ run source.now (option_copied blob.entry) state }
{
    let made = summed(state, source);
    match blob {
        None => made,
        Some(blob) => summed(counted(made, 1), blob),
    }
}

/// Whether a command forks.
fn is_forking(source: &[char]) -> bool
    ensures { result ≡ is_forking source.now }
{
    match source {
        [first, ..] => *first == 'b',
        [] => false,
    }
}

/// The number in decimal.
fn told(alloc: Global, number: u64) -> Result<PlainText, AllocError>
    ensures { IfOk result (λ text. text ≡ decimal number) }
{
    let mut buffer = Buffer::new();
    PlainText::from_str(alloc, buffer.format(number))
}

/// One report, of the whole source, which tells the number.
fn telling(
    alloc: Global,
    kind: ReportKind,
    source: &[char],
    number: u64,
) -> Result<Items<Report>, AllocError>
    ensures { IfOk result (λ reports. reports ≡ about kind source.now (decimal number)) }
{
    let text = told(alloc, number)?;
    about(alloc, kind, source, text)
}

impl Language for Tally {
    ghost use Rattle.test_editor.specs.Tally.{counting};
    ghost use Rattle.test_editor.specs.Tidy.{tidy};

    type State = u64;

    ghost lang = { counting };

    ghost questions = { record { step = λ source blob state. 1; fork = λ source state. 1 } };

    ghost tidy = { tidy };

    fn start(
        &self,
        _alloc: Global,
        _node: &NodeName,
        imports: &Imports<u64>,
        aliases: &NodeAliases,
    ) -> Result<u64, AllocError> {
        match imports {
            Imports::Ordered(imports) => {
                let count = aliases.pairs.get().len();
                Ok(counted(imported(1, imports.as_slice()), count as u64))
            }
            Imports::Bad(name) => Ok(summed(2, name.as_slice())),
        }
    }

    fn step<P: Stop>(
        &self,
        alloc: Global,
        source: &[char],
        blob: Option<&[char]>,
        state: &u64,
        stop: &mut P,
    ) -> Answer<Made<u64>> {
        if stop.asked() {
            return Answer::Stopped;
        }
        let state = run(source, blob, *state);
        match telling(alloc, ReportKind::Command, source, state) {
            Err(_) => Answer::NoMemory,
            Ok(reports) => Answer::Given(Made {
                state,
                reports,
                forks: is_forking(source),
            }),
        }
    }

    fn fork<P: Stop>(
        &self,
        alloc: Global,
        source: &[char],
        state: &u64,
        stop: &mut P,
    ) -> Answer<Items<Report>> {
        if stop.asked() {
            return Answer::Stopped;
        }
        match telling(alloc, ReportKind::Proved, source, *state) {
            Ok(reports) => Answer::Given(reports),
            Err(_) => Answer::NoMemory,
        }
    }

    fn print(
        &self,
        alloc: Global,
        source: &[char],
        state: &u64,
    ) -> Result<Items<Report>, AllocError> {
        telling(alloc, ReportKind::State, source, *state)
    }
}
