//! Reports of commands.
ghost use Rattle.std.specs.Prelude.{◌≡◌, ◌∷◌, [], Some, IfOk, decimal, string_bytes};
ghost use Rattle.std.specs.Option.{option_copied};
ghost use Rattle.report_markup.specs.declared.kind.ReportKind.TheVariants as kinds;
ghost use Rattle.isar_rules.specs.Reports.{report, name_is, whole, announced, error_report};
ghost use Rattle.isar_rules.specs.Cites.{meant_by};
ghost use Rattle.isar_rules.specs.Reports.{theory_report, import_report, def_report, local_report, formula_report};

use crate::texts::{ascii, plain, shared};
use isar_rules::Spot;
use itoa::Buffer;
use nj_formula::{Formula, Name};
use nj_syntax::formula_text;
use outer_syntax::{Kind, Token, scalars};
use pide_base::Range;
use report_markup::{PlainText, Property, PropertyKey, Report, ReportKind};
use sqlite_items::Items;
use std::alloc::{AllocError, Global};

/// A property of this key, whose value is the name, in the memory that it has.
fn property(key: PropertyKey, name: &Name) -> Result<Property, AllocError>
    ensures { IfOk result (λ property. property ≡ record { key = key; value = name.now }) }
{
    Ok(Property {
        key,
        value: shared(name)?,
    })
}

/// What names something.
fn name_is(alloc: Global, name: &[char]) -> Result<Property, AllocError>
    ensures { IfOk result (λ property. property ≡ name_is name.now) }
{
    Ok(Property {
        key: PropertyKey::Name,
        value: plain(ascii(alloc, name)?)?,
    })
}

/// What a name means: a fact of a theory, or one of the proof's own.
fn meant_by(
    alloc: Global,
    theory: Option<&Name>,
    name: &Name,
) -> Result<Items<Property>, AllocError>
    ensures { IfOk result (λ properties. properties
        ≡ meant_by (option_copied theory.entry) name.now) }
{
    let mut properties = Items::new(alloc);
    if let Some(theory) = theory {
        properties.push(property(PropertyKey::Theory, theory)?)?;
    }
    properties.push(property(PropertyKey::Name, name)?)?;
    Ok(properties)
}

/// A report of this kind that names something.
fn naming(
    alloc: Global,
    kind: ReportKind,
    range: Range,
    name: &[char],
) -> Result<Report, AllocError>
    ensures { IfOk result (λ r. r ≡ report kind range (name_is name.now ∷ []) []) }
{
    let mut properties = Items::new(alloc);
    properties.push(name_is(alloc, name)?)?;
    Ok(Report {
        range,
        kind,
        properties,
        text: PlainText::empty(),
    })
}

/// A report of this kind that has a text.
fn saying(alloc: Global, kind: ReportKind, range: Range, text: PlainText) -> Report
    ensures { result ≡ report kind range [] text }
{
    Report {
        range,
        kind,
        properties: Items::new(alloc),
        text,
    }
}

/// All of a command's source.
fn whole(source: &[char]) -> Range
    ensures { result ≡ whole source.now }
{
    Range {
        start: 0,
        stop: source.len(),
    }
}

/// The command of these tokens, by the word that is written; what begins with no command has none.
pub fn announced(
    alloc: Global,
    source: &[char],
    tokens: &[Token],
) -> Result<Items<Report>, AllocError>
    ensures { IfOk result (λ reports. reports ≡ announced source.now tokens.now) }
{
    let mut reports = Items::new(alloc);
    let [first, _more @ ..] = tokens else {
        return Ok(reports);
    };
    if matches!(first.kind, Kind::Command) {
        let word = scalars(source, first.range);
        reports.push(naming(alloc, ReportKind::Command, first.range, word)?)?;
    }
    Ok(reports)
}

/// An error of the command of this source.
pub fn error_report(alloc: Global, source: &[char], text: String) -> Result<Report, AllocError>
    ensures { IfOk result (λ r. r ≡ error_report source.now (string_bytes text)) }
{
    let text = plain(text)?;
    Ok(saying(alloc, ReportKind::Error, whole(source), text))
}

/// What is printed behind the command of this source.
pub fn state_report(alloc: Global, source: &[char], text: String) -> Result<Report, AllocError>
    ensures { IfOk result (λ r. r
        ≡ report kinds.State (whole source.now) [] (string_bytes text)) }
{
    let text = plain(text)?;
    Ok(saying(alloc, ReportKind::State, whole(source), text))
}

/// A proof that is suggested behind the command of this source.
pub fn suggest_report(alloc: Global, source: &[char], text: String) -> Result<Report, AllocError>
    ensures { IfOk result (λ r. r
        ≡ report kinds.Suggest (whole source.now) [] (string_bytes text)) }
{
    let text = plain(text)?;
    Ok(saying(alloc, ReportKind::Suggest, whole(source), text))
}

/// A theory's name.
pub fn theory_report(alloc: Global, name: &Spot) -> Result<Report, AllocError>
    ensures { IfOk result (λ r. r ≡ theory_report name.now) }
{
    naming(alloc, ReportKind::Theory, name.range, name.text.as_slice())
}

/// The name of an import.
pub fn import_report(alloc: Global, name: &Spot) -> Result<Report, AllocError>
    ensures { IfOk result (λ r. r ≡ import_report name.now) }
{
    naming(alloc, ReportKind::Import, name.range, name.text.as_slice())
}

/// The name of a theory's new fact, which stands at this range.
pub fn def_report(
    alloc: Global,
    theory: &Name,
    name: &Name,
    range: Range,
) -> Result<Report, AllocError>
    ensures { IfOk result (λ r. r
        ≡ def_report theory.now (record { text = name.now; range = range })) }
{
    Ok(Report {
        range,
        kind: ReportKind::Def,
        properties: meant_by(alloc, Some(theory), name)?,
        text: PlainText::empty(),
    })
}

/// A new local name.
pub fn fixed_report(alloc: Global, name: &Spot) -> Result<Items<Report>, AllocError>
    ensures { IfOk result (λ reports. reports ≡ local_report (Some name.now)) }
{
    let mut reports = Items::new(alloc);
    reports.push(naming(alloc, ReportKind::Def, name.range, name.text.as_slice())?)?;
    Ok(reports)
}

/// A new local name, where there is one.
pub fn local_report(alloc: Global, name: &Option<Spot>) -> Result<Items<Report>, AllocError>
    ensures { IfOk result (λ reports. reports ≡ local_report name.now) }
{
    match name {
        Some(name) => fixed_report(alloc, name),
        None => Ok(Items::new(alloc)),
    }
}

/// A name that is cited, by what it means.
pub fn ref_report(
    alloc: Global,
    range: Range,
    theory: Option<&Name>,
    name: &Name,
) -> Result<Report, AllocError>
    ensures { IfOk result (λ r. r
        ≡ report kinds.Ref range (meant_by (option_copied theory.entry) name.now) []) }
{
    Ok(Report {
        range,
        kind: ReportKind::Ref,
        properties: meant_by(alloc, theory, name)?,
        text: PlainText::empty(),
    })
}

/// The proof behind the command of this source was checked.
pub fn proved_report(alloc: Global, source: &[char]) -> Report
    ensures { result ≡ report kinds.Proved (whole source.now) [] [] }
{
    saying(alloc, ReportKind::Proved, whole(source), PlainText::empty())
}

/// How many facts were loaded, as a report of the blob's name.
pub fn loaded_report(alloc: Global, name: &Spot, count: usize) -> Result<Report, AllocError>
    ensures { IfOk result (λ r. r ≡ report kinds.Loaded name.now.range [] (decimal count)) }
{
    let text = plain(counted(alloc, count)?)?;
    Ok(saying(alloc, ReportKind::Loaded, name.range, text))
}

/// The number in decimal.
fn counted(alloc: Global, number: usize) -> Result<String, AllocError>
    ensures { IfOk result (λ text. string_bytes text ≡ decimal number) }
{
    let mut buffer = Buffer::new();
    String::from_str(alloc, buffer.format(number))
}

/// A formula, printed.
pub fn formula_report(alloc: Global, quoted: &Spot, formula: &Formula) -> Result<Report, AllocError>
    ensures { IfOk result (λ r. r ≡ formula_report quoted.now formula.now) }
{
    let text = plain(formula_text(alloc, formula)?)?;
    Ok(saying(alloc, ReportKind::Formula, quoted.range, text))
}
