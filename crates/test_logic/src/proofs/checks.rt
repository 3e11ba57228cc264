//! Proof terms against goals (`proof_checks`): what each rule asks for, and the first fault.
use crate::logic::reading::known;
use crate::proofs::patience::Patience;
use crate::proofs::scopes::add;
use crate::proofs::terms::term;
use crate::shared::deep_text;
use joined_results::each_of_three;
use nj_formula::{Formula, Name};
use proof_checks::{Checked, check};
use proof_terms::Term;
use script_lines::{Answer, Call, Fault, joined, once, say};
use std::alloc::{AllocError, Global};
use theory_ctx::{Ctx, Scope};

/// More questions than any term here has rules.
const PATIENT: usize = 1_000;

/// Answers a check of a term against a goal, in a scope of facts that is always the same: `proved`,
/// `stopped`, or the fault; behind it, of a check `until` a question that is answered yes, how many
/// came. The term is a text, or so many `nested` openings before one.
pub(crate) fn answer(alloc: Global, out: &mut String, call: &Call<'_>) -> Answer {
    match call.verb {
        "of" => {
            let _asked = judged(alloc, out, call.word(0)?, call.word(1)?, PATIENT)?;
            Ok(())
        }
        "until" => until(alloc, out, call),
        "nested" => {
            let term = deep_text(alloc, call, ")")?;
            let _asked = judged(alloc, out, call.word(3)?, term.as_str(), PATIENT)?;
            Ok(())
        }
        _ => Err(Fault::Line),
    }
}

/// Answers a check until a question, and how many came.
fn until(alloc: Global, out: &mut String, call: &Call<'_>) -> Answer {
    let last = call.place(0)?;
    let questions = judged(alloc, out, call.word(1)?, call.word(2)?, last)?;
    Ok(write!(out, ", asked {questions}")?)
}

/// Facts of three theories: `B` and `C` have one name in common, and `A` hides `B`'s `m`.
const FACTS: &[(&str, &str, &str)] = &[
    ("A", "a", "A"),
    ("A", "p", "P(x)"),
    ("A", "other", "Q(x)"),
    ("A", "every", "ALL z. P(z)"),
    ("A", "some", "EX z. P(z)"),
    ("A", "m", "M"),
    ("B", "m", "N"),
    ("B", "both", "A"),
    ("C", "both", "B"),
];

/// Local facts of `A`.
const LOCALS: &[(&str, &str)] = &[
    ("h", "A & B"),
    ("either", "A | B"),
    ("k", "A --> B"),
    ("n", "~A"),
    ("f", "False"),
    ("a", "A"),
    ("b", "B"),
    ("c", "C"),
];

/// The context of the facts.
fn facts(alloc: Global) -> Result<Ctx, Fault> {
    let mut ctx = Ctx::new();
    let added = add_facts(alloc, &mut ctx);
    once(added, ctx)
}

fn add_facts(alloc: Global, ctx: &mut Ctx) -> Answer {
    for (theory, name, text) in FACTS {
        let formula = known(alloc, text)?;
        let fact = each_of_three(
            Name::new(alloc, theory),
            Name::new(alloc, name),
            Ok(formula),
        );
        add(alloc, ctx, fact)?;
    }
    Ok(())
}

/// A scope of the theory `A` with the local facts.
fn scope<'a>(alloc: Global, ctx: &'a Ctx) -> Result<Scope<'a>, Fault> {
    let mut scope = Scope::new("A", ctx);
    let pushed = push_locals(alloc, &mut scope);
    once(pushed, scope)
}

fn push_locals(alloc: Global, scope: &mut Scope<'_>) -> Answer {
    for (name, text) in LOCALS {
        scope.push(alloc, name, known(alloc, text)?)?;
    }
    Ok(())
}

/// The term of a text that has to be one.
fn known_term(alloc: Global, text: &str) -> Result<Term, Fault> {
    match term(alloc, text) {
        Ok(term) => Ok(term),
        Err(_) => Err(Fault::Line),
    }
}

/// Answers what a check tells.
fn put_checked(out: &mut String, answer: Checked) -> Answer {
    match answer {
        Checked::Proved(thm) => {
            drop(thm);
            say(out, "proved")
        }
        Checked::Wrong(fault) => {
            let put = write!(out, "{fault}");
            drop(fault);
            Ok(put?)
        }
        Checked::Stopped => say(out, "stopped"),
        Checked::NoMemory => Err(Fault::NoMemory),
    }
}

/// Answers a check of the term against the goal, and tells how many questions came.
fn judged(
    alloc: Global,
    out: &mut String,
    goal: &str,
    term: &str,
    last: usize,
) -> Result<usize, Fault> {
    let ctx = facts(alloc)?;
    let given = joined(known_term(alloc, term), known(alloc, goal));
    let questions = judged_beside(alloc, out, &ctx, given, last);
    drop(ctx);
    questions
}

/// The same, of a term and a goal beside the facts.
fn judged_beside(
    alloc: Global,
    out: &mut String,
    ctx: &Ctx,
    given: Result<(Term, Formula), Fault>,
    last: usize,
) -> Result<usize, Fault> {
    let scope = scope(alloc, ctx)?;
    let questions = judged_in(alloc, out, &scope, given, last);
    drop(scope);
    questions
}

/// The same, in a scope.
fn judged_in(
    alloc: Global,
    out: &mut String,
    scope: &Scope<'_>,
    given: Result<(Term, Formula), Fault>,
    last: usize,
) -> Result<usize, Fault> {
    let (term, goal) = given?;
    let mut stop = Patience::until(last);
    let answer = check(alloc, &term, &goal, scope, &mut stop);
    drop((term, goal));
    put_checked(out, answer)?;
    Ok(stop.asked)
}
