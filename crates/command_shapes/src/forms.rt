//! The forms of commands: names and quoted formulas.
ghost use Rattle.std.specs.Prelude.{◌≡◌, ◌∷◌, [], IfOk, option_map};
ghost use Rattle.isar_rules.specs.declared.verb.Verb.TheVariants as verb;
ghost use Rattle.isar_rules.specs.declared.shape.Shape.TheVariants as shape;
ghost use Rattle.isar_rules.specs.Words.{words};
ghost use Rattle.isar_rules.specs.Shapes.{worded};
ghost use Rattle.command_shapes.specs.Seen.{seen};
ghost use Rattle.command_shapes.specs.Forms.{lone_name, lone_formula, named_formula, alone};

use crate::word::{Word, word_of};
use isar_rules::{Shape, Spot, Verb};
use joined_results::each_of_three;
use outer_syntax::Token;
use std::alloc::{AllocError, Global};

/// NAME
fn name_in(word: Word) -> Option<Spot>
    ensures { result ≡ lone_name (seen word) }
{
    match word {
        Word::Name(name) => Some(name),
        _ => None,
    }
}

/// FORM
fn formula_in(word: Word) -> Option<Spot>
    ensures { result ≡ lone_formula (seen word) }
{
    match word {
        Word::Quoted(formula) => Some(formula),
        _ => None,
    }
}

/// NAME `:` FORM
fn named_in(first: Word, second: Word, third: Word) -> Option<(Spot, Spot)>
    ensures { result ≡ named_formula (seen first) (seen second) (seen third) }
{
    match (first, second, third) {
        (Word::Name(name), Word::Colon, Word::Quoted(formula)) => Some((name, formula)),
        _ => None,
    }
}

/// The name and the formula of these words, behind `axiom` or `lemma`.
fn named_words(first: Word, second: Word, third: Word) -> Option<(Spot, Spot)>
    ensures axiom { option_map (λ p. shape.Axiom p.0 p.1) result
        ≡ worded verb.Axiom (seen first ∷ seen second ∷ seen third ∷ []) }
    ensures lemma { option_map (λ p. shape.Lemma p.0 p.1) result
        ≡ worded verb.Lemma (seen first ∷ seen second ∷ seen third ∷ []) }
{
    named_in(first, second, third)
}

/// The name that the tokens are, alone.
fn lone_name(alloc: Global, source: &[char], tokens: &[Token]) -> Result<Option<Spot>, AllocError>
    ensures { IfOk result (λ n. option_map (λ x. shape.Fix x) n
        ≡ worded verb.Fix (words source.now tokens.now)) }
{
    match tokens {
        [token] => Ok(name_in(word_of(alloc, source, *token)?)),
        _ => Ok(None),
    }
}

/// The formula that the tokens are, alone.
fn lone_formula(
    alloc: Global,
    source: &[char],
    tokens: &[Token],
) -> Result<Option<Spot>, AllocError>
    ensures { IfOk result (λ f. option_map (λ x. shape.Show x) f
        ≡ worded verb.Show (words source.now tokens.now)) }
{
    match tokens {
        [token] => Ok(formula_in(word_of(alloc, source, *token)?)),
        _ => Ok(None),
    }
}

/// The name and the formula that the tokens are.
fn named_formula(
    alloc: Global,
    source: &[char],
    tokens: &[Token],
) -> Result<Option<(Spot, Spot)>, AllocError>
    ensures axiom { IfOk result (λ p. option_map (λ p. shape.Axiom p.0 p.1) p
        ≡ worded verb.Axiom (words source.now tokens.now)) }
    ensures lemma { IfOk result (λ p. option_map (λ p. shape.Lemma p.0 p.1) p
        ≡ worded verb.Lemma (words source.now tokens.now)) }
{
    match tokens {
        [first, second, third] => {
            let (first, second, third) = each_of_three(
                word_of(alloc, source, *first),
                word_of(alloc, source, *second),
                word_of(alloc, source, *third),
            )?;
            Ok(named_words(first, second, third))
        }
        _ => Ok(None),
    }
}

/// The formula that the tokens are, perhaps with a name.
fn perhaps_named(
    alloc: Global,
    source: &[char],
    tokens: &[Token],
) -> Result<Option<(Option<Spot>, Spot)>, AllocError>
    ensures assume { IfOk result (λ p. option_map (λ p. shape.Assume p.0 p.1) p
        ≡ worded verb.Assume (words source.now tokens.now)) }
    ensures have { IfOk result (λ p. option_map (λ p. shape.Have p.0 p.1) p
        ≡ worded verb.Have (words source.now tokens.now)) }
{
    match tokens {
        [token] => match formula_in(word_of(alloc, source, *token)?) {
            Some(formula) => Ok(Some((None, formula))),
            None => Ok(None),
        },
        _ => match named_formula(alloc, source, tokens)? {
            Some((name, formula)) => Ok(Some((Some(name), formula))),
            None => Ok(None),
        },
    }
}

/// A command alone.
fn alone(tokens: &[Token], shape: Shape) -> Option<Shape>
    ensures { result ≡ alone tokens.now shape }
{
    if tokens.is_empty() {
        Some(shape)
    } else {
        drop(shape);
        None
    }
}

/// `proof`, or `proof -`.
fn proof(alloc: Global, source: &[char], tokens: &[Token]) -> Result<Option<Shape>, AllocError>
    ensures { IfOk result (λ s. s ≡ worded verb.Proof (words source.now tokens.now)) }
{
    match tokens {
        [] => Ok(Some(Shape::Proof { dash: false })),
        [token] => match word_of(alloc, source, *token)? {
            Word::Dash => Ok(Some(Shape::Proof { dash: true })),
            _ => Ok(None),
        },
        _ => Ok(None),
    }
}

/// `axiom` NAME `:` FORM
fn axiom(alloc: Global, source: &[char], tokens: &[Token]) -> Result<Option<Shape>, AllocError>
    ensures { IfOk result (λ s. s ≡ worded verb.Axiom (words source.now tokens.now)) }
{
    match named_formula(alloc, source, tokens)? {
        Some((name, formula)) => Ok(Some(Shape::Axiom { name, formula })),
        None => Ok(None),
    }
}

/// `lemma` NAME `:` FORM
fn lemma(alloc: Global, source: &[char], tokens: &[Token]) -> Result<Option<Shape>, AllocError>
    ensures { IfOk result (λ s. s ≡ worded verb.Lemma (words source.now tokens.now)) }
{
    match named_formula(alloc, source, tokens)? {
        Some((name, formula)) => Ok(Some(Shape::Lemma { name, formula })),
        None => Ok(None),
    }
}

/// `fix` NAME
fn fix(alloc: Global, source: &[char], tokens: &[Token]) -> Result<Option<Shape>, AllocError>
    ensures { IfOk result (λ s. s ≡ worded verb.Fix (words source.now tokens.now)) }
{
    match lone_name(alloc, source, tokens)? {
        Some(name) => Ok(Some(Shape::Fix(name))),
        None => Ok(None),
    }
}

/// `assume` [NAME `:`] FORM
fn assume(alloc: Global, source: &[char], tokens: &[Token]) -> Result<Option<Shape>, AllocError>
    ensures { IfOk result (λ s. s ≡ worded verb.Assume (words source.now tokens.now)) }
{
    match perhaps_named(alloc, source, tokens)? {
        Some((name, formula)) => Ok(Some(Shape::Assume { name, formula })),
        None => Ok(None),
    }
}

/// `have` [NAME `:`] FORM
fn have(alloc: Global, source: &[char], tokens: &[Token]) -> Result<Option<Shape>, AllocError>
    ensures { IfOk result (λ s. s ≡ worded verb.Have (words source.now tokens.now)) }
{
    match perhaps_named(alloc, source, tokens)? {
        Some((name, formula)) => Ok(Some(Shape::Have { name, formula })),
        None => Ok(None),
    }
}

/// `show` FORM
fn show(alloc: Global, source: &[char], tokens: &[Token]) -> Result<Option<Shape>, AllocError>
    ensures { IfOk result (λ s. s ≡ worded verb.Show (words source.now tokens.now)) }
{
    match lone_formula(alloc, source, tokens)? {
        Some(formula) => Ok(Some(Shape::Show(formula))),
        None => Ok(None),
    }
}

/// A command of words behind its own one.
pub(crate) fn worded(
    alloc: Global,
    source: &[char],
    verb: Verb,
    tokens: &[Token],
) -> Result<Option<Shape>, AllocError>
    ensures { IfOk result (λ s. s ≡ worded verb (words source.now tokens.now)) }
{
    match verb {
        Verb::Theory | Verb::Load => Ok(None),
        Verb::End => Ok(alone(tokens, Shape::End)),
        Verb::Axiom => axiom(alloc, source, tokens),
        Verb::Lemma => lemma(alloc, source, tokens),
        Verb::Proof => proof(alloc, source, tokens),
        Verb::Fix => fix(alloc, source, tokens),
        Verb::Assume => assume(alloc, source, tokens),
        Verb::Have => have(alloc, source, tokens),
        Verb::Show => show(alloc, source, tokens),
        Verb::Next => Ok(alone(tokens, Shape::Next)),
        Verb::Qed => Ok(alone(tokens, Shape::Qed)),
        Verb::By => Ok(Some(Shape::By)),
    }
}
