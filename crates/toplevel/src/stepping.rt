//! What a command makes of the state before it.
ghost use Rattle.std.specs.Prelude.{◌≡◌, IfOk};
ghost use Rattle.std.specs.Option.{option_copied};
ghost use Rattle.doc_nodes.specs.Needs.{source_tokens};
ghost use Rattle.isar_rules.specs.Steps.{made_effect, step, step_on, tried};

use crate::acting::tried;
use crate::made::made_by;
use crate::tokens::aliases_at;
use command_shapes::{begins_by, shape_of};
use doc_nodes::Aliases;
use isar_rules::{Shape, State};
use language::Made;
use outer_syntax::{Token, next_proper, proper_after};
use std::alloc::{AllocError, Global};

/// What a command of these tokens and this shape makes.
fn step_of(
    alloc: Global,
    source: &[char],
    blob: Option<&[char]>,
    before: &State,
    tokens: &[Token],
    shape: Option<Shape>,
) -> Result<Made<State>, AllocError>
    ensures { IfOk result (λ made. made ≡ made_effect source.now tokens.now before.now
        (tried (option_copied blob.entry) before.now.place shape)) }
{
    let ended = tried(alloc, blob, &before.place, shape);
    made_by(alloc, source, tokens, before, ended)
}

/// What a command of these tokens makes under these aliases.
fn step_on(
    alloc: Global,
    source: &[char],
    blob: Option<&[char]>,
    before: &State,
    aliases: &Aliases,
    tokens: &[Token],
) -> Result<Made<State>, AllocError>
    ensures { IfOk result (λ made. made ≡ step_on source.now (option_copied blob.entry) before.now
        aliases.now tokens.now) }
{
    let shape = shape_of(alloc, source, tokens, aliases)?;
    step_of(alloc, source, blob, before, tokens, shape)
}

/// What a command makes under these aliases. Behind `by` nothing is read: it is the check's.
fn step_under(
    alloc: Global,
    source: &[char],
    blob: Option<&[char]>,
    before: &State,
    aliases: &Aliases,
) -> Result<Made<State>, AllocError>
    ensures { IfOk result (λ made. made ≡ step_on source.now (option_copied blob.entry) before.now
        aliases.now (source_tokens aliases.now source.now)) }
{
    let names = aliases.names();
    let Some(first) = next_proper(source, names, 0) else {
        return step_on(alloc, source, blob, before, aliases, &[]);
    };
    if begins_by(source, first, aliases) {
        return step_of(alloc, source, blob, before, &[first], Some(Shape::By));
    }
    let tokens = proper_after(alloc, source, names, first)?;
    step_on(alloc, source, blob, before, aliases, &tokens)
}

/// What a command makes of the state before it, with the text of the blob that it asks for.
pub(crate) fn step(
    alloc: Global,
    source: &[char],
    blob: Option<&[char]>,
    before: &State,
) -> Result<Made<State>, AllocError>
    ensures { IfOk result (λ made. made
        ≡ step source.now (option_copied blob.entry) before.now) }
{
    let none = Aliases::new(alloc);
    let aliases = aliases_at(&before.place, before.aliases.get(), &none);
    step_under(alloc, source, blob, before, aliases)
}
