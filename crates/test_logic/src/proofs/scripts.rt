//! Proof states (`proof_state`): commands, what each answers, and the print after it.
use crate::logic::reading::known;
use crate::proofs::scopes::context_of;
use crate::shared::put;
use joined_results::{both, each_of_three};
use nj_formula::{Argument, Formula, Name};
use nj_syntax::print;
use proof_state::{Proof, ProofFault};
use script_lines::{Answer, Call, Fault, say};
use sqlite_items::Items;
use std::alloc::{AllocError, Global};
use std::mem;
use theory_ctx::{Ctx, Lookup};

/// A proof, a copy of it that is kept, and the facts that it sees.
#[derive(Drop)]
pub(crate) struct Proofs {
    proof: Proof,
    kept: Proof,
    ctx: Ctx,
}

impl Proofs {
    pub(crate) fn new() -> Proofs {
        Proofs {
            proof: Proof::start(Formula::False),
            kept: Proof::start(Formula::False),
            ctx: Ctx::new(),
        }
    }
}

/// Begins a proof of a goal: of a text, of the one behind the fact of a context, `beside`, or of the
/// one that is `captured`: `ALL x. R(x, y)`, where `y` is called `x` too.
pub(crate) fn begin(alloc: Global, proofs: &mut Proofs, call: &Call<'_>) -> Answer {
    match call.verb {
        "of" => begin_with(alloc, proofs, Ok(Ctx::new()), known(alloc, call.word(0)?)),
        "beside" => begin_beside(alloc, proofs, call.word(0)?, call.word(1)?),
        "captured" => begin_with(alloc, proofs, Ok(Ctx::new()), captured(alloc)),
        _ => Err(Fault::Line),
    }
}

/// Begins a proof of a goal, beside a context of one fact.
fn begin_beside(alloc: Global, proofs: &mut Proofs, fact: &str, goal: &str) -> Answer {
    let ctx = ctx_of(alloc, known(alloc, fact));
    begin_with(alloc, proofs, ctx, known(alloc, goal))
}

/// Begins a proof of a goal, with a copy, beside a context.
fn begin_with(
    alloc: Global,
    proofs: &mut Proofs,
    ctx: Result<Ctx, Fault>,
    goal: Result<Formula, Fault>,
) -> Answer {
    drop(mem::replace(&mut proofs.ctx, ctx?));
    drop(mem::replace(&mut proofs.proof, Proof::start(goal?)));
    let kept = proofs.proof.copy(alloc)?;
    drop(mem::replace(&mut proofs.kept, kept));
    Ok(())
}

/// A context of one fact.
fn ctx_of(alloc: Global, formula: Result<Formula, Fault>) -> Result<Ctx, Fault> {
    let formula = formula?;
    context_of(
        alloc,
        each_of_three(Name::new(alloc, "A"), Name::new(alloc, "n"), Ok(formula)),
    )
}

/// The place 0 and the name `x`.
fn arguments(alloc: Global) -> Result<Items<Argument>, AllocError> {
    let mut arguments = Items::new(alloc);
    arguments.push(Argument::Bound(0))?;
    arguments.push(Argument::Free(Name::new(alloc, "x")?))?;
    Ok(arguments)
}

/// `R` of these.
fn captured_body(alloc: Global) -> Result<Formula, AllocError> {
    let (name, arguments) = both(Name::new(alloc, "R"), arguments(alloc))?;
    Formula::atom(alloc, name, arguments)
}

/// `ALL x. R(x, y)` where `y` is called `x` too.
fn captured(alloc: Global) -> Result<Formula, Fault> {
    let (name, body) = both(Name::new(alloc, "x"), captured_body(alloc))?;
    Ok(Formula::all(alloc, name, body)?)
}

/// Answers what a command does, and line by line the print after it. A fact that is called `-` has
/// no name. `means` asks for the formula of a name, `goal` for the open goal, `keep` keeps a copy,
/// `swap` takes it.
pub(crate) fn answer(
    alloc: Global,
    out: &mut String,
    proofs: &mut Proofs,
    call: &Call<'_>,
) -> Answer {
    put_call(alloc, out, proofs, call)?;
    put_lines(out, proofs.proof.describe(alloc))
}

/// Adds each line of a text that has some.
fn put_lines(out: &mut String, text: Result<String, AllocError>) -> Answer {
    let text = text?;
    for line in text.split('\n') {
        out.push_str(if line.is_empty() { "" } else { " / " })?;
        out.push_str(line)?;
    }
    Ok(())
}

/// Answers a command, or what is asked of the proof.
fn put_call(alloc: Global, out: &mut String, proofs: &mut Proofs, call: &Call<'_>) -> Answer {
    let Proofs { proof, kept, ctx } = proofs;
    match call.verb {
        "fix" => put_went(out, proof.fix(alloc, call.word(0)?, ctx)),
        "goal" => put_goal(alloc, out, proof),
        "means" => put_meant(alloc, out, proof, call.word(0)?),
        "keep" => keep(out, kept, proof.copy(alloc)),
        "swap" => swap(out, proof, kept),
        _ => put_command(alloc, out, proof, call),
    }
}

/// Answers a command.
fn put_command(alloc: Global, out: &mut String, proof: &mut Proof, call: &Call<'_>) -> Answer {
    match call.verb {
        "proof" => put_went(out, proof.proof(alloc, false)),
        "proof-" => put_went(out, proof.proof(alloc, true)),
        "next" => put_went(out, proof.next(alloc)),
        "qed" => put_closed(out, proof.qed(alloc)),
        "by" => put_closed(out, proof.by(alloc)),
        _ => put_formula_command(alloc, out, proof, call),
    }
}

/// Answers a command that has a formula, with a name before it where it may have one.
fn put_formula_command(
    alloc: Global,
    out: &mut String,
    proof: &mut Proof,
    call: &Call<'_>,
) -> Answer {
    match call.words {
        [text] if call.verb == "show" => put_shown(alloc, out, proof, known(alloc, text)),
        [name, text] => put_named(alloc, out, proof, call.verb, name, known(alloc, text)),
        _ => Err(Fault::Line),
    }
}

fn put_shown(
    alloc: Global,
    out: &mut String,
    proof: &mut Proof,
    formula: Result<Formula, Fault>,
) -> Answer {
    put_went(out, proof.show(alloc, formula?))
}

fn put_named(
    alloc: Global,
    out: &mut String,
    proof: &mut Proof,
    verb: &str,
    name: &str,
    formula: Result<Formula, Fault>,
) -> Answer {
    let formula = formula?;
    let name = if name == "-" { None } else { Some(name) };
    match verb {
        "assume" => put_went(out, proof.assume(alloc, name, formula)),
        "have" => put_went(out, proof.have(alloc, name, formula)),
        _ => Err(Fault::Line),
    }
}

/// Answers a refusal.
fn put_refused(out: &mut String, fault: ProofFault) -> Answer {
    match fault {
        ProofFault::NotAllowed => say(out, "not allowed"),
        ProofFault::NoSuchSubgoal => say(out, "no such subgoal"),
        ProofFault::SubgoalsRemain => say(out, "subgoals remain"),
        ProofFault::NotFresh { name } => {
            let name = name.as_str();
            Ok(write!(out, "not fresh {name}")?)
        }
        ProofFault::NoMemory => Err(Fault::NoMemory),
    }
}

/// Answers a command that goes on in the proof.
fn put_went(out: &mut String, answer: Result<(), ProofFault>) -> Answer {
    match answer {
        Ok(()) => say(out, "done"),
        Err(fault) => put_refused(out, fault),
    }
}

/// Answers a command that closes a goal: `whole` where it is the goal of the start.
fn put_closed(out: &mut String, answer: Result<bool, ProofFault>) -> Answer {
    match answer {
        Ok(true) => say(out, "whole"),
        Ok(false) => say(out, "done"),
        Err(fault) => put_refused(out, fault),
    }
}

/// Keeps a copy.
fn keep(out: &mut String, kept: &mut Proof, copy: Result<Proof, AllocError>) -> Answer {
    drop(mem::replace(kept, copy?));
    say(out, "kept")
}

/// Lets the two change places.
fn swap(out: &mut String, proof: &mut Proof, kept: &mut Proof) -> Answer {
    mem::swap(proof, kept);
    say(out, "swapped")
}

/// Answers the open goal, or `no goal`, and whether it is in mode state.
fn put_goal(alloc: Global, out: &mut String, proof: &Proof) -> Answer {
    match proof.goal() {
        Some(goal) => put(out, Ok(print(alloc, goal)?))?,
        None => say(out, "no goal")?,
    }
    say(out, if proof.is_state() { ", state" } else { "" })
}

/// Answers the formula of the local fact that the name means, or `unknown`.
fn put_meant(alloc: Global, out: &mut String, proof: &Proof, name: &str) -> Answer {
    let ctx = Ctx::new();
    let put = put_meant_beside(alloc, out, proof, name, &ctx);
    drop(ctx);
    put
}

/// The same, beside a context.
fn put_meant_beside(
    alloc: Global,
    out: &mut String,
    proof: &Proof,
    name: &str,
    ctx: &Ctx,
) -> Answer {
    let scope = proof.scope(alloc, "A", ctx)?;
    let put = put_found(alloc, out, scope.lookup(name));
    drop(scope);
    put
}

/// Answers the formula of a local fact that was found, or `unknown`.
fn put_found(alloc: Global, out: &mut String, found: Lookup<'_>) -> Answer {
    match found {
        Lookup::Found {
            theory: None,
            name: _,
            formula,
        } => put(out, Ok(print(alloc, formula)?)),
        Lookup::Unknown => say(out, "unknown"),
        _ => say(out, "no local fact"),
    }
}
