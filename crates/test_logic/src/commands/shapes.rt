//! The shapes of commands (`command_shapes`), where no aliases are in force.
use crate::shared::{put_scalars, scalars_of};
use command_shapes::shape_of;
use doc_nodes::Aliases;
use isar_rules::{Shape, Spot};
use outer_syntax::{Token, proper_under};
use script_lines::{Answer, Call, Fault};
use std::alloc::{AllocError, Global};

/// Answers the word of the shape of a command, or `malformed`; of a lemma its `parts`.
pub(crate) fn answer(alloc: Global, out: &mut String, call: &Call<'_>) -> Answer {
    match call.verb {
        "shape" => Ok(put_shape(out, shape_in(alloc, scalars_of(alloc, call.word(0)?)))?),
        "parts" => Ok(put_parts(out, shape_in(alloc, scalars_of(alloc, call.word(0)?)))?),
        _ => Err(Fault::Line),
    }
}

/// The shape of a command, if it has one.
type Found = Result<Option<Shape>, AllocError>;

/// The command's shape.
fn shape_in(alloc: Global, source: Result<Vec<char>, AllocError>) -> Found {
    let source = source?;
    shape_by(
        alloc,
        source.as_slice(),
        proper_under(alloc, source.as_slice(), &[]),
    )
}

/// The same, by its tokens.
fn shape_by(alloc: Global, source: &[char], tokens: Result<Vec<Token>, AllocError>) -> Found {
    let tokens = tokens?;
    shape_of(alloc, source, &tokens, &Aliases::new(alloc))
}

/// The shape's word, with `-` behind it where the command has a dash or no name.
fn shape_word(shape: &Shape) -> &'static str {
    match shape {
        Shape::Theory { .. } => "theory",
        Shape::End => "end",
        Shape::Axiom { .. } => "axiom",
        Shape::Lemma { .. } => "lemma",
        Shape::Load(_) => "load",
        Shape::Proof { dash: true } => "proof -",
        Shape::Proof { dash: false } => "proof",
        Shape::Fix(_) => "fix",
        Shape::Assume { name: None, .. } => "assume -",
        Shape::Assume { .. } => "assume",
        Shape::Have { name: None, .. } => "have -",
        Shape::Have { .. } => "have",
        Shape::Show(_) => "show",
        Shape::Next => "next",
        Shape::Qed => "qed",
        Shape::By => "by",
    }
}

/// Adds the shape's word.
fn put_shape(out: &mut String, found: Found) -> Result<(), AllocError> {
    match found? {
        Some(shape) => {
            let word = shape_word(&shape);
            drop(shape);
            out.push_str(word)
        }
        None => out.push_str("malformed"),
    }
}

/// Adds the name and the formula of a lemma, each with its place.
fn put_parts(out: &mut String, found: Found) -> Result<(), AllocError> {
    match found? {
        Some(shape) => {
            let put = put_parts_of(out, &shape);
            drop(shape);
            put
        }
        None => out.push_str("malformed"),
    }
}

fn put_parts_of(out: &mut String, shape: &Shape) -> Result<(), AllocError> {
    match shape {
        Shape::Lemma { name, formula } => {
            put_spot(out, name)?;
            out.push_str("; ")?;
            put_spot(out, formula)
        }
        _ => out.push_str("no lemma"),
    }
}

/// Adds the spot's text and place.
fn put_spot(out: &mut String, spot: &Spot) -> Result<(), AllocError> {
    put_scalars(out, spot.text.as_slice())?;
    let start = spot.range.start;
    let stop = spot.range.stop;
    write!(out, " {start}-{stop}")
}
