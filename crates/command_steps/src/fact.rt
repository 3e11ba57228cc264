//! The fact of a line.
ghost use Rattle.std.specs.Prelude.{◌≡◌, IsTrue, IfOk};
ghost use Rattle.text_words.specs.Identifier.{is_identifier};
ghost use Rattle.outer_syntax.specs.Kinds.{is_name};
ghost use Rattle.nj_syntax.specs.Answer.{formula_of};
ghost use Rattle.isar_rules.specs.BlobLines.{is_free_word, named_fact, fact_in};
ghost use Rattle.command_steps.specs.Listing.{good};

use crate::line::past_gap;
use joined_results::both;
use nj_formula::{Formula, Name};
use nj_syntax::{FormulaFault, one_answer, parse};
use outer_syntax::{Kind, Token, renamed};
use pide_base::Range;
use std::alloc::{AllocError, Global};
use text_words::identifier_front;

/// A name and a formula.
pub type ListedFact = (Name, Formula);

/// Whether it is the kind of a name.
fn is_name(kind: Kind) -> bool
    ensures { result ≡ is_name kind }
{
    matches!(kind, Kind::Ident)
}

/// Whether an identifier is no word of the language's own.
fn is_free_word(word: &[char]) -> bool
    ensures { result ≡ is_free_word word.now }
{
    let range = Range {
        start: 0,
        stop: word.len(),
    };
    let kind = Kind::Ident;
    is_name(renamed(word, &[], Token { kind, range }).kind)
}

/// The formula that the text is.
fn formula_in(alloc: Global, text: &[char]) -> Result<Option<Formula>, AllocError>
    ensures { IfOk result (λ f. f ≡ good (formula_of text.now)) }
{
    one_answer();
    match parse(alloc, text) {
        Ok(formula) => Ok(Some(formula)),
        Err(FormulaFault::NoMemory) => Err(AllocError),
        Err(_) => Ok(None),
    }
}

/// The identifier as a name.
fn name_of(alloc: Global, word: &[char]) -> Result<Name, AllocError>
    requires { IsTrue (is_identifier word.now) }
    ensures { IfOk result (λ name. name ≡ word.now) }
{
    let mut text = String::new(alloc);
    let mut rest = word;
    'scalars: while let [scalar, more @ ..] = rest {
        text.push(*scalar)?;
        rest = more;
    }
    Name::new(alloc, text.as_str())
}

/// A name, and what stands behind it and behind spaces and tabs: `:` and a formula.
fn named_fact(alloc: Global, name: &[char], rest: &[char]) -> Result<Option<ListedFact>, AllocError>
    requires { IsTrue (is_identifier name.now) }
    ensures { IfOk result (λ fact. fact ≡ named_fact name.now rest.now) }
{
    let [colon, more @ ..] = rest else {
        return Ok(None);
    };
    if *colon != ':' || !is_free_word(name) {
        return Ok(None);
    }
    let (name, formula) = both(name_of(alloc, name), formula_in(alloc, more))?;
    match formula {
        Some(formula) => Ok(Some((name, formula))),
        None => Ok(None),
    }
}

/// The fact of a line: a name, `:` and a formula to its end.
pub(crate) fn fact_in(alloc: Global, line: &[char]) -> Result<Option<ListedFact>, AllocError>
    ensures { IfOk result (λ fact. fact ≡ fact_in line.now) }
{
    match identifier_front(line) {
        Some(n) => named_fact(alloc, &line[..n], past_gap(&line[n..])),
        None => Ok(None),
    }
}
