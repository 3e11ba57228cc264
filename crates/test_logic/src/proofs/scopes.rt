//! Scopes of local facts (`theory_ctx`): which fact a name means inside a block.
use crate::logic::making::atom;
use crate::proofs::told::{put_meaning, said};
use joined_results::{both, each_of_three};
use nj_formula::{Formula, Name};
use script_lines::{Answer, Call, Fault, lent, once, say, words_of};
use std::alloc::{AllocError, Global};
use std::mem;
use theory_ctx::{Ctx, InnerScope, Local, Locals, Scope};

/// What a scope may see of theories: no fact, or the fact `A.h`, which says `A`.
#[derive(Clone, Copy)]
pub(crate) struct Sights<'a> {
    pub(crate) none: &'a Ctx,
    pub(crate) one: &'a Ctx,
}

/// The context of the fact `A.h`.
pub(crate) fn context_of_one(alloc: Global) -> Result<Ctx, AllocError> {
    let fact = each_of_three(
        Name::new(alloc, "A"),
        Name::new(alloc, "h"),
        atom(alloc, "A"),
    );
    match context_of(alloc, fact) {
        Ok(ctx) => Ok(ctx),
        Err(_) => Err(AllocError),
    }
}

/// Adds a fact to a context that has none of this name, so that it fails for want of memory alone.
pub(crate) fn add(
    alloc: Global,
    ctx: &mut Ctx,
    fact: Result<(Name, Name, Formula), AllocError>,
) -> Answer {
    let (theory, name, formula) = fact?;
    let added = ctx.add(alloc, &theory, &name, formula);
    drop((theory, name));
    match added {
        Ok(()) => Ok(()),
        Err(_) => Err(Fault::NoMemory),
    }
}

/// The context of one fact.
pub(crate) fn context_of(
    alloc: Global,
    fact: Result<(Name, Name, Formula), AllocError>,
) -> Result<Ctx, Fault> {
    let mut ctx = Ctx::new();
    let added = add(alloc, &mut ctx, fact);
    once(added, ctx)
}

/// Answers of a scope in the theory `A`: `sees` begins one anew, which sees no fact of a theory or
/// one; `push` names a local fact and its atom, `push-all` those of a block, the oldest first;
/// `means` asks what a name means, `all` for all local facts, the innermost first. Each word behind
/// `inside` is a call of a scope inside this one: `push`, `pop` and `means`, or what a name means
/// `around` it.
pub(crate) fn answer<'a>(
    alloc: Global,
    out: &mut String,
    scope: &mut Scope<'a>,
    sights: &Sights<'a>,
    call: &Call<'_>,
) -> Answer {
    match call.verb {
        "sees" => begin(out, scope, seen(sights, call.word(0)?)?),
        "push" => push(alloc, out, scope, call.word(0)?, atom(alloc, call.word(1)?)),
        "push-all" => push_all(alloc, out, scope, locals_of(alloc, call.words)),
        "means" => Ok(put_meaning(out, scope.lookup(call.word(0)?))?),
        "all" => Ok(put_locals(out, scope)?),
        "inside" => inside(alloc, out, scope, call.words),
        _ => Err(Fault::Line),
    }
}

/// The context that a word says.
fn seen<'a>(sights: &Sights<'a>, word: &str) -> Result<&'a Ctx, Fault> {
    match word {
        "none" => Ok(sights.none),
        "one" => Ok(sights.one),
        _ => Err(Fault::Line),
    }
}

/// A new scope is the scope from then on.
fn begin<'a>(out: &mut String, scope: &mut Scope<'a>, ctx: &'a Ctx) -> Answer {
    drop(mem::replace(scope, Scope::new("A", ctx)));
    say(out, "done")
}

/// Adds a local fact.
fn push(
    alloc: Global,
    out: &mut String,
    scope: &mut Scope<'_>,
    name: &str,
    formula: Result<Formula, AllocError>,
) -> Answer {
    scope.push(alloc, name, formula?)?;
    say(out, "done")
}

/// Adds the local facts of a block.
fn push_all(
    alloc: Global,
    out: &mut String,
    scope: &mut Scope<'_>,
    locals: Result<Locals, Fault>,
) -> Answer {
    let locals = locals?;
    let pushed = scope.push_all(alloc, &locals);
    drop(locals);
    pushed?;
    say(out, "done")
}

/// The local facts that the words name, each with its atom, the oldest first.
fn locals_of(alloc: Global, words: &[&str]) -> Result<Locals, Fault> {
    let mut locals = Locals::new();
    let put = put_locals_of(alloc, &mut locals, words);
    once(put, locals)
}

/// Puts them before the others.
fn put_locals_of(alloc: Global, locals: &mut Locals, words: &[&str]) -> Answer {
    for pair in words.chunks(2) {
        if let [name, said] = pair {
            put_first(
                alloc,
                locals,
                both(Name::new(alloc, name), atom(alloc, said)),
            )?;
        }
    }
    Ok(())
}

/// Puts a local fact before the others.
fn put_first(
    alloc: Global,
    locals: &mut Locals,
    fact: Result<(Name, Formula), AllocError>,
) -> Answer {
    let fact = fact?;
    let more = locals.with_first(alloc, &fact.0, &fact.1);
    drop(fact);
    drop(mem::replace(locals, more?));
    Ok(())
}

/// Adds all local facts of the scope.
fn put_locals(out: &mut String, scope: &Scope<'_>) -> Result<(), AllocError> {
    let mut is_first = true;
    for fact in scope.locals() {
        if !is_first {
            out.push_str(", ")?;
        }
        is_first = false;
        put_local(out, fact)?;
    }
    Ok(())
}

/// Adds a local fact.
fn put_local(out: &mut String, local: &Local) -> Result<(), AllocError> {
    let name = local.name.as_str();
    let said = said(&local.formula);
    write!(out, "{name}: {said}")
}

/// Answers each of the calls inside the scope, with a semicolon between them.
fn inside(alloc: Global, out: &mut String, scope: &Scope<'_>, calls: &[&str]) -> Answer {
    let mut inner = scope.inner(alloc);
    let answer = answer_each(alloc, out, scope, &mut inner, calls);
    drop(inner);
    answer
}

/// The same, of a scope that is inside.
fn answer_each(
    alloc: Global,
    out: &mut String,
    scope: &Scope<'_>,
    inner: &mut InnerScope<'_, '_>,
    calls: &[&str],
) -> Answer {
    for (place, call) in calls.iter().enumerate() {
        out.push_str(if place == 0 { "" } else { "; " })?;
        answer_line(alloc, out, scope, inner, words_of(alloc, call))?;
    }
    Ok(())
}

/// Answers the call of these words.
fn answer_line(
    alloc: Global,
    out: &mut String,
    scope: &Scope<'_>,
    inner: &mut InnerScope<'_, '_>,
    words: Result<Vec<String>, Fault>,
) -> Answer {
    let words = words?;
    let lent = lent(alloc, words.as_slice())?;
    answer_inside(alloc, out, scope, inner, &Call::of(lent.as_slice())?)
}

/// Answers a call inside the scope.
fn answer_inside(
    alloc: Global,
    out: &mut String,
    scope: &Scope<'_>,
    inner: &mut InnerScope<'_, '_>,
    call: &Call<'_>,
) -> Answer {
    match call.verb {
        "push" => push_inside(alloc, out, inner, new_local(alloc, call)?),
        "pop" => Ok(put_popped(out, inner)?),
        "means" => Ok(put_meaning(out, inner.lookup(call.word(0)?))?),
        "around" => Ok(put_meaning(out, scope.lookup(call.word(0)?))?),
        _ => Err(Fault::Line),
    }
}

/// A local fact of a name and an atom.
fn new_local(alloc: Global, call: &Call<'_>) -> Result<(Name, Formula), Fault> {
    let name = call.word(0)?;
    let said = call.word(1)?;
    Ok(both(Name::new(alloc, name), atom(alloc, said))?)
}

/// Adds a local fact inside.
fn push_inside(
    alloc: Global,
    out: &mut String,
    inner: &mut InnerScope<'_, '_>,
    fact: (Name, Formula),
) -> Answer {
    let (name, formula) = fact;
    let pushed = inner.push(alloc, &name, formula);
    drop(name);
    pushed?;
    say(out, "done")
}

/// Takes the newest local fact inside, and adds it, or `none`.
fn put_popped(out: &mut String, inner: &mut InnerScope<'_, '_>) -> Result<(), AllocError> {
    match inner.pop() {
        Some(local) => {
            let put = put_local(out, &local);
            drop(local);
            put
        }
        None => out.push_str("none"),
    }
}
