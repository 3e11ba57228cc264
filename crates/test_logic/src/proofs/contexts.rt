//! Contexts of facts (`theory_ctx`): which fact a name means.
use crate::logic::making::atom;
use crate::proofs::told::{put_meaning, said};
use joined_results::each_of_three;
use nj_formula::{Formula, Name};
use script_lines::{Answer, Call, Fault, say, say_whether};
use std::alloc::{AllocError, Global};
use std::mem;
use theory_ctx::{AddError, Ctx, FactName};

/// A context, and one that is kept beside it.
#[derive(Drop)]
pub(crate) struct Contexts {
    ctx: Ctx,
    kept: Ctx,
}

impl Contexts {
    pub(crate) fn new() -> Contexts {
        Contexts {
            ctx: Ctx::new(),
            kept: Ctx::new(),
        }
    }
}

/// Answers of a context: `add` and `set` name a theory, a fact and its atom; `has` asks whether the
/// theory has the fact, `free` whether a name is free, `means` what is meant in the theory by a
/// name, `facts` all facts; `keep` keeps a copy beside it, `swap` takes that, `clear` begins anew,
/// `merge` merges it with what is kept, and once more with itself.
pub(crate) fn answer(
    alloc: Global,
    out: &mut String,
    contexts: &mut Contexts,
    call: &Call<'_>,
) -> Answer {
    let ctx = &mut contexts.ctx;
    match call.verb {
        "add" => add(alloc, out, ctx, fact_of(alloc, call)?),
        "set" => set(alloc, out, ctx, fact_of(alloc, call)?),
        "has" => say_whether(out, ctx.has(call.word(0)?, call.word(1)?)),
        "free" => say_whether(out, ctx.has_free(call.word(0)?)),
        "means" => Ok(put_meaning(out, ctx.lookup(call.word(0)?, call.word(1)?))?),
        _ => of_both(alloc, out, contexts, call.verb),
    }
}

/// Answers of the context and of what is kept beside it.
fn of_both(alloc: Global, out: &mut String, contexts: &mut Contexts, verb: &str) -> Answer {
    let Contexts { ctx, kept } = contexts;
    match verb {
        "facts" => Ok(put_facts(out, ctx)?),
        "keep" => replace(out, kept, ctx.copy()),
        "swap" => swap(out, ctx, kept),
        "clear" => replace(out, ctx, Ok(Ctx::new())),
        "merge" => {
            let merged = merged(alloc, ctx, kept);
            replace(out, ctx, merged)
        }
        _ => Err(Fault::Line),
    }
}

/// A fact: its theory, its name, and its formula.
type NewFact = (Name, Name, Formula);

/// The fact of a theory, a name and an atom.
fn fact_of(alloc: Global, call: &Call<'_>) -> Result<NewFact, Fault> {
    let theory = call.word(0)?;
    let name = call.word(1)?;
    let said = call.word(2)?;
    Ok(each_of_three(
        Name::new(alloc, theory),
        Name::new(alloc, name),
        atom(alloc, said),
    )?)
}

/// Adds a fact.
fn add(alloc: Global, out: &mut String, ctx: &mut Ctx, fact: NewFact) -> Answer {
    let (theory, name, formula) = fact;
    let added = ctx.add(alloc, &theory, &name, formula);
    drop((theory, name));
    match added {
        Ok(()) => say(out, "done"),
        Err(AddError::Taken) => say(out, "taken"),
        Err(AddError::NoMemory) => Err(Fault::NoMemory),
    }
}

/// Puts a fact in the place of another.
fn set(alloc: Global, out: &mut String, ctx: &mut Ctx, fact: NewFact) -> Answer {
    let (theory, name, formula) = fact;
    let set = ctx.set(alloc, &theory, &name, formula);
    drop((theory, name));
    set?;
    say(out, "done")
}

/// Puts a context in the place of another.
fn replace(out: &mut String, ctx: &mut Ctx, new: Result<Ctx, AllocError>) -> Answer {
    drop(mem::replace(ctx, new?));
    say(out, "done")
}

/// Lets the two change places.
fn swap(out: &mut String, ctx: &mut Ctx, kept: &mut Ctx) -> Answer {
    mem::swap(ctx, kept);
    say(out, "done")
}

/// A context merged with another, and once more with itself.
fn merged(alloc: Global, ctx: &Ctx, kept: &Ctx) -> Result<Ctx, AllocError> {
    Ctx::merge(alloc, &[ctx, kept, ctx])
}

/// Adds the long name of each fact, and its atom.
fn put_facts(out: &mut String, ctx: &Ctx) -> Result<(), AllocError> {
    for (fact, formula) in ctx.facts() {
        put_fact(out, fact, formula)?;
    }
    Ok(())
}

/// Adds the long name of a fact, and its atom.
fn put_fact(out: &mut String, fact: &FactName, formula: &Formula) -> Result<(), AllocError> {
    let long = fact.long_name();
    let said = said(formula);
    write!(out, " {long}: {said};")
}
