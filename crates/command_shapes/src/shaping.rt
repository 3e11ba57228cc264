//! The shape of a command.
ghost use Rattle.std.specs.Prelude.{◌≡◌, ◌∷◌, ◌<◌, IsTrue, IfOk, List, Some, length};
ghost use Rattle.isar_rules.specs.declared.shape.Shape.TheVariants as shape;
ghost use Rattle.isar_rules.specs.Shapes.{load_shape, shape_by, shape_of};
ghost use Rattle.doc_nodes.specs.Needs.{needs};
ghost use Rattle.outer_syntax.specs.Kinds.{is_command};
ghost use Rattle.outer_syntax.specs.declared.token.Token.{Token};
ghost use Rattle.command_shapes.specs.Commands.{verb_in, begins_by};

use crate::forms::worded;
use crate::header::header_shape;
use crate::verbs::verb_of;
use doc_nodes::{Aliases, meant, needs};
use isar_rules::{Shape, Spot, Verb};
use outer_syntax::{Kind, Token, scalars};
use sqlite_items::Items;
use std::alloc::{AllocError, Global};

/// The scalars of a text in ASCII.
fn scalars_of(alloc: Global, text: &str) -> Result<Items<char>, AllocError>
    ensures { IfOk result (λ scalars. scalars ≡ text.now) }
{
    let mut scalars = Items::new(alloc);
    let mut rest = text.as_bytes();
    'bytes: while let [byte, more @ ..] = rest {
        scalars.push(char::from(*byte))?;
        rest = more;
    }
    Ok(scalars)
}

/// `load` and a string that contains a blob's name.
fn load_shape(
    alloc: Global,
    source: &[char],
    tokens: &[Token],
    aliases: &Aliases,
) -> Result<Option<Shape>, AllocError>
    ensures { IfOk result (λ s. s
        ≡ load_shape source.now tokens.now (needs source.now aliases.now)) }
{
    let [_, blob, ..] = tokens else {
        return Ok(None);
    };
    match needs(alloc, source, aliases)? {
        Some(name) => Ok(Some(Shape::Load(Spot {
            text: scalars_of(alloc, name.as_str())?,
            range: blob.range,
        }))),
        None => Ok(None),
    }
}

/// The shape of the command of these tokens.
fn shape_by(
    alloc: Global,
    source: &[char],
    tokens: &[Token],
    aliases: &Aliases,
    verb: Verb,
) -> Result<Option<Shape>, AllocError>
    requires { 0 < length tokens.now }
    ensures { IfOk result (λ s. s ≡ shape_by aliases.now source.now tokens.now verb) }
{
    match verb {
        Verb::Theory => header_shape(alloc, source, tokens),
        Verb::Load => load_shape(alloc, source, tokens, aliases),
        _ => worded(alloc, source, verb, &tokens[1..]),
    }
}

fn is_command(kind: Kind) -> bool
    ensures { result ≡ is_command kind }
{
    matches!(kind, Kind::Command)
}

/// The command that the token begins, by its word or the alias that it is.
fn verb_in(source: &[char], first: Token, aliases: &Aliases) -> Option<Verb>
    ensures { result ≡ verb_in aliases.now source.now first }
{
    if is_command(first.kind) {
        verb_of(meant(aliases, scalars(source, first.range)))
    } else {
        None
    }
}

/// Whether the command that the token begins is `by`, whose shape is the same whatever follows.
pub fn begins_by(source: &[char], first: Token, aliases: &Aliases) -> bool
    ensures told { result ≡ begins_by aliases.now source.now first }
    ensures alone { IsTrue result → (more : List Token) →
        shape_of aliases.now source.now (first ∷ more) ≡ Some shape.By }
{
    matches!(verb_in(source, first, aliases), Some(Verb::By))
}

/// The shape of the command of this source, by its proper tokens under the aliases in force, with
/// its own word as the first. None comes exactly where the command is malformed, NoMemory where
/// memory runs out. Ranges count scalars of the source.
pub fn shape_of(
    alloc: Global,
    source: &[char],
    tokens: &[Token],
    aliases: &Aliases,
) -> Result<Option<Shape>, AllocError>
    ensures { IfOk result (λ s. s ≡ shape_of aliases.now source.now tokens.now) }
{
    let [first, ..] = tokens else {
        return Ok(None);
    };
    match verb_in(source, *first, aliases) {
        Some(verb) => shape_by(alloc, source, tokens, aliases, verb),
        None => Ok(None),
    }
}
