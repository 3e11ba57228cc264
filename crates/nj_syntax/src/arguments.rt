//! Tokens of terms: those that follow a name in the place of an argument, and those that follow an
//! argument.

ghost use Rattle.std.specs.Prelude.{◌≡◌, [], ◌∷◌, ◌++◌, ◌+◌, reverse, length, IfOk};
ghost use Rattle.nj_syntax.specs.declared.token.Token.{Token as Tokens};
ghost use Rattle.nj_syntax.specs.declared.state.Mode.{Mode as Modes};
ghost use Rattle.nj_syntax.specs.declared.state.Pending.{Pending as Pendings};
ghost use Rattle.nj_syntax.specs.Terms.{binder_place, named_term};
ghost use Rattle.nj_syntax.specs.Reduced.{bound_names};
ghost use Rattle.nj_syntax.specs.Steps.{goes, step_comma, step};
ghost use Rattle.nj_syntax.specs.Seen.{seen_step};

use crate::operands::{begin_argument, pushed, stay};
use crate::state::{Mode, Pending, Step};
use crate::token::Token;
use nj_formula::{Argument, Formula, Name};
use sqlite_items::Items;
use std::alloc::{AllocError, Global};

/// Which of the names that pending quantifiers bind this is, counted from the innermost.
fn place_of(pending: &[Pending], name: &Name) -> Option<usize>
    ensures { result ≡ binder_place (bound_names (reverse pending.now)) name.now }
{
    let mut rest = pending;
    let mut inner = 0;
    'outward: while let [outer @ .., last] = rest {
        if let Pending::Body(_, bound) = last {
            if bound.is(name.as_str()) {
                return Some(inner);
            }
            inner += 1;
        }
        rest = outer;
    }
    None
}

/// The name by itself: what binds it, or a free name.
fn named(pending: &[Pending], name: Name) -> Argument
    ensures { result ≡ named_term (bound_names (reverse pending.now)) name }
{
    match place_of(pending, &name) {
        Some(place) => Argument::Bound(place),
        None => Argument::Free(name),
    }
}

/// One more argument.
fn with(arguments: Items<Argument>, argument: Argument) -> Result<Items<Argument>, AllocError>
    ensures { IfOk result (λ all. all ≡ arguments ++ argument ∷ []) }
{
    let mut arguments = arguments;
    arguments.push(argument)?;
    Ok(arguments)
}

/// A name where an argument begins.
pub fn argument(
    alloc: Global,
    pending: Items<Pending>,
    name: &Name,
) -> Result<Option<Step>, AllocError>
    ensures { IfOk result (λ s. seen_step s
        ≡ goes (Modes.Head name.now) (reverse pending) (length (reverse pending))) }
{
    let name = name.copy(alloc)?;
    Ok(Some(stay(Mode::Head(name), pending)))
}

/// The next argument of this predicate or function.
fn next_argument(pending: Items<Pending>, frame: Pending) -> Result<Option<Step>, AllocError>
    ensures { IfOk result (λ s.
        seen_step s
        ≡ goes Modes.Argument (frame ∷ reverse pending) (length (reverse pending) + 1)) }
{
    let pending = pushed(pending, frame)?;
    Ok(Some(stay(Mode::Argument, pending)))
}

/// A comma after an argument of a predicate.
fn predicate_on(
    pending: Items<Pending>,
    name: Name,
    before: Items<Argument>,
    argument: Argument,
) -> Result<Option<Step>, AllocError>
    ensures { IfOk result (λ s. seen_step s
        ≡ step_comma (Pendings.Predicate name before ∷ reverse pending) argument Tokens.Comma) }
{
    let arguments = with(before, argument)?;
    next_argument(pending, Pending::Predicate(name, arguments))
}

/// A comma after an argument of a function.
fn function_on(
    pending: Items<Pending>,
    name: Name,
    before: Items<Argument>,
    argument: Argument,
) -> Result<Option<Step>, AllocError>
    ensures { IfOk result (λ s. seen_step s
        ≡ step_comma (Pendings.Function name before ∷ reverse pending) argument Tokens.Comma) }
{
    let arguments = with(before, argument)?;
    next_argument(pending, Pending::Function(name, arguments))
}

/// A comma after an argument.
fn after_comma(pending: Items<Pending>, argument: Argument) -> Result<Option<Step>, AllocError>
    ensures { IfOk result (λ s. seen_step s ≡ step_comma (reverse pending) argument Tokens.Comma) }
{
    let mut pending = pending;
    match pending.pop() {
        Some(Pending::Predicate(name, before)) => predicate_on(pending, name, before, argument),
        Some(Pending::Function(name, before)) => function_on(pending, name, before, argument),
        _ => Ok(None),
    }
}

/// The parenthesis that closes after a predicate's arguments.
fn predicate_ends(
    alloc: Global,
    pending: Items<Pending>,
    name: Name,
    before: Items<Argument>,
    argument: Argument,
) -> Result<Option<Step>, AllocError>
    ensures { IfOk result (λ s. seen_step s
        ≡ step_comma (Pendings.Predicate name before ∷ reverse pending) argument Tokens.Close) }
{
    let atom = Formula::atom(alloc, name, with(before, argument)?)?;
    Ok(Some(stay(Mode::Operator(atom), pending)))
}

/// The parenthesis that closes after a function's arguments.
fn function_ends(
    alloc: Global,
    pending: Items<Pending>,
    name: Name,
    before: Items<Argument>,
    argument: Argument,
) -> Result<Option<Step>, AllocError>
    ensures { IfOk result (λ s. seen_step s
        ≡ step_comma (Pendings.Function name before ∷ reverse pending) argument Tokens.Close) }
{
    let term = Argument::apply(alloc, name, with(before, argument)?)?;
    Ok(Some(stay(Mode::Comma(term), pending)))
}

/// The parenthesis that closes after the last argument.
fn after_last(
    alloc: Global,
    pending: Items<Pending>,
    argument: Argument,
) -> Result<Option<Step>, AllocError>
    ensures { IfOk result (λ s. seen_step s ≡ step_comma (reverse pending) argument Tokens.Close) }
{
    let mut pending = pending;
    match pending.pop() {
        Some(Pending::Predicate(name, before)) => {
            predicate_ends(alloc, pending, name, before, argument)
        }
        Some(Pending::Function(name, before)) => {
            function_ends(alloc, pending, name, before, argument)
        }
        _ => Ok(None),
    }
}

/// A token after an argument.
pub fn after_argument(
    alloc: Global,
    pending: Items<Pending>,
    argument: Argument,
    token: &Token,
) -> Result<Option<Step>, AllocError>
    ensures { IfOk result (λ s. seen_step s ≡ step_comma (reverse pending) argument token.now) }
{
    match token {
        Token::Comma => after_comma(pending, argument),
        Token::Close => after_last(alloc, pending, argument),
        _ => Ok(None),
    }
}

/// A token after a name in the place of an argument, which may open the name's own arguments.
pub fn after_head(
    alloc: Global,
    pending: Items<Pending>,
    name: Name,
    token: &Token,
) -> Result<Option<Step>, AllocError>
    ensures { IfOk result (λ s. seen_step s ≡ step (Modes.Head name, reverse pending) token.now) }
{
    match token {
        Token::Open => {
            let function = Pending::Function(name, Items::new(alloc));
            begin_argument(pending, function)
        }
        _ => {
            let argument = named(pending.as_slice(), name);
            after_argument(alloc, pending, argument, token)
        }
    }
}
