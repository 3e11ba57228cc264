//! The tokens of a proof, taken one after the other.

ghost use Rattle.std.specs.Prelude.{◌≡◌, ◌∷◌, [], List, IfOk, MatchOption, true, false};
ghost use Rattle.nj_syntax.specs.Answer.{formula_of, term_of};
ghost use Rattle.proof_terms.specs.declared.mark.Mark.{Mark};
ghost use Rattle.proof_terms.specs.Marks.{is_ascii, mark_of, marks};
ghost use Rattle.proof_terms.specs.Reading.{Gives, of_name, read_start, read_rule_name, read_name, read_formula, read_object, read_close, Quotes, quoted_error};

use crate::fault::{TermError, TermFault};
use crate::mark::{Mark, sign};
use crate::rule_names::rule_named;
use crate::term::Cite;
use nj_formula::{Formula, Name, ObjTerm, Shared};
use nj_kernel::Rule;
use nj_syntax::{FormulaFault, parse, parse_term};
use outer_syntax::{Kind, Token, content, scalars};
use sqlite_items::Items;
use std::alloc::{AllocError, Global};

/// The tokens of a source that are still to be read.
#[derive(Drop)]
pub(crate) struct Reader<'a> {
    pub(crate) alloc: Global,
    pub(crate) source: &'a [char],
    pub(crate) rest: &'a [Token],
}

/// What a term begins with.
#[derive(Drop)]
pub(crate) enum Start {
    Fact(Cite),
    /// `(` and the name of a rule.
    Rule(Rule),
}

/// The text is no term.
pub(crate) fn malformed() -> TermError
    ensures { result ≡ TermError.Fault TermFault.Malformed }
{
    TermError::Fault(TermFault::Malformed)
}

/// The name whose scalars these are, unless one of them is not ASCII.
fn ascii_name(alloc: Global, scalars: &[char]) -> Result<Option<Name>, AllocError>
    ensures { IfOk result (λ name. MatchOption name (is_ascii scalars.now ≡ false)
        (λ x. (is_ascii scalars.now ≡ true) × (x ≡ scalars.now))) }
{
    let mut letters = String::with_capacity(alloc, scalars.len())?;
    for c in scalars {
        if !c.is_ascii() {
            return Ok(None);
        }
        letters.push(*c)?;
    }
    Ok(Some(Name::from_string(letters)?))
}

/// What the token of the source is.
fn mark(alloc: Global, source: &[char], token: Token) -> Result<Mark, AllocError>
    ensures { IfOk result (λ m. m ≡ mark_of source.now token) }
{
    let text = scalars(source, token.range);
    let range = token.range;
    match token.kind {
        Kind::Ident => match ascii_name(alloc, text)? {
            Some(name) => Ok(Mark::Name(Cite { name, range })),
            None => Ok(Mark::Other),
        },
        Kind::LongIdent => match ascii_name(alloc, text)? {
            Some(name) => Ok(Mark::Long(Cite { name, range })),
            None => Ok(Mark::Other),
        },
        Kind::String | Kind::Cartouche => {
            let inside = content(alloc, token.kind, text)?;
            Ok(Mark::Quoted(Items::from_vec(inside)))
        }
        Kind::Sym => Ok(sign(text)),
        _ => Ok(Mark::Other),
    }
}

/// The rule that the token of the source names. It takes no memory.
fn rule_in(source: &[char], token: Token) -> Option<Rule>
    ensures { (more : List Mark)
        → read_rule_name (mark_of source.now token ∷ more) ≡ of_name result more }
{
    match token.kind {
        Kind::Ident => rule_named(scalars(source, token.range)),
        _ => None,
    }
}

impl<'a> Reader<'a> {
    /// The next token, which is taken; none at the end.
    fn next(&mut self) -> Result<Option<Mark>, AllocError>
        ensures { IfOk result (λ found. MatchOption found
            (marks self.old.source.now self.old.rest.now ≡ [])
            (λ m. marks self.old.source.now self.old.rest.now
            ≡ m ∷ marks self.new.source.now self.new.rest.now)) }
    {
        match self.rest {
            [] => Ok(None),
            [token, after @ ..] => {
                let mark = mark(self.alloc, self.source, *token)?;
                self.rest = after;
                Ok(Some(mark))
            }
        }
    }

    /// The rule that is named next.
    fn rule(&mut self) -> Result<Rule, TermError>
        ensures { Gives result (marks self.new.source.now self.new.rest.now)
            (read_rule_name (marks self.old.source.now self.old.rest.now)) }
    {
        let [token, after @ ..] = self.rest else {
            return Err(malformed());
        };
        match rule_in(self.source, *token) {
            Some(rule) => {
                self.rest = after;
                Ok(rule)
            }
            None => Err(malformed()),
        }
    }

    /// What a term begins with: a cited name, or `(` and the name of a rule.
    pub(crate) fn start(&mut self) -> Result<Start, TermError>
        ensures { Gives result (marks self.new.source.now self.new.rest.now)
            (read_start (marks self.old.source.now self.old.rest.now)) }
    {
        match self.next()? {
            Some(Mark::Name(cite)) => Ok(Start::Fact(cite)),
            Some(Mark::Long(cite)) => Ok(Start::Fact(cite)),
            Some(Mark::Opens) => Ok(Start::Rule(self.rule()?)),
            _ => Err(malformed()),
        }
    }

    /// A name of the term's own.
    pub(crate) fn name(&mut self) -> Result<Name, TermError>
        ensures { Gives result (marks self.new.source.now self.new.rest.now)
            (read_name (marks self.old.source.now self.old.rest.now)) }
    {
        match self.next()? {
            Some(Mark::Name(cite)) => Ok(cite.name),
            _ => Err(malformed()),
        }
    }

    /// `)`
    pub(crate) fn close(&mut self) -> Result<(), TermError>
        ensures { Gives result (marks self.new.source.now self.new.rest.now)
            (read_close (marks self.old.source.now self.old.rest.now)) }
    {
        match self.next()? {
            Some(Mark::Closes) => Ok(()),
            _ => Err(malformed()),
        }
    }

    /// A quoted formula.
    pub(crate) fn formula(&mut self) -> Result<Shared<Formula>, TermError>
        ensures { Gives result (marks self.new.source.now self.new.rest.now)
            (read_formula (marks self.old.source.now self.old.rest.now)) }
    {
        match self.next()? {
            Some(Mark::Quoted(text)) => formula_in(self.alloc, text.as_slice()),
            _ => Err(malformed()),
        }
    }

    /// A quoted term of the object language.
    pub(crate) fn object(&mut self) -> Result<Shared<ObjTerm>, TermError>
        ensures { Gives result (marks self.new.source.now self.new.rest.now)
            (read_object (marks self.old.source.now self.old.rest.now)) }
    {
        match self.next()? {
            Some(Mark::Quoted(text)) => object_in(self.alloc, text.as_slice()),
            _ => Err(malformed()),
        }
    }
}

/// The formula that a quoted text is, or its fault.
fn formula_in(alloc: Global, text: &[char]) -> Result<Shared<Formula>, TermError>
    ensures { Quotes (formula_of text.now) result }
{
    match parse(alloc, text) {
        Ok(formula) => Ok(Shared::new(alloc, formula)?),
        Err(fault) => Err(quoted(fault)),
    }
}

/// The term of the object language that a quoted text is, or its fault.
fn object_in(alloc: Global, text: &[char]) -> Result<Shared<ObjTerm>, TermError>
    ensures { Quotes (term_of text.now) result }
{
    match parse_term(alloc, text) {
        Ok(term) => Ok(Shared::new(alloc, term)?),
        Err(fault) => Err(quoted(fault)),
    }
}

/// The fault of what is quoted.
fn quoted(fault: FormulaFault) -> TermError
    ensures { result ≡ quoted_error fault }
{
    match fault {
        FormulaFault::At { pos, .. } => TermError::Fault(TermFault::BadFormula { at: pos }),
        FormulaFault::TooDeep => TermError::Fault(TermFault::FormulaTooDeep),
        FormulaFault::NoMemory => TermError::NoMemory,
    }
}
