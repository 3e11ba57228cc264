//! All that the calls of a script are about.
use crate::commands::{blobs, reports, shapes};
use crate::logic::theorems::Theorems;
use crate::logic::{formulas, laws, making, marks, printing, reading, theorems};
use crate::proofs::contexts::Contexts;
use crate::proofs::scopes::Sights;
use crate::proofs::scripts::Proofs;
use crate::proofs::{checks, contexts, scopes, scripts, terms};
use script_lines::{Answer, Call, Fault, Script};
use std::alloc::Global;
use std::mem;
use theory_ctx::Scope;

/// What the calls of a script work on: the theorems that were made, a context, a scope, and a
/// proof.
#[derive(Drop)]
pub(crate) struct Subjects<'a> {
    theorems: Theorems,
    contexts: Contexts,
    scope: Scope<'a>,
    sights: Sights<'a>,
    proofs: Proofs,
}

impl<'a> Subjects<'a> {
    pub(crate) fn new(alloc: Global, sights: Sights<'a>) -> Subjects<'a> {
        Subjects {
            theorems: Theorems::new(alloc),
            contexts: Contexts::new(),
            scope: Scope::new("A", sights.none),
            sights,
            proofs: Proofs::new(),
        }
    }
}

impl<'a> Script for Subjects<'a> {
    fn begin(&mut self, alloc: Global) -> Answer {
        let new = Subjects::new(alloc, self.sights);
        drop(mem::replace(self, new));
        Ok(())
    }

    fn answer(&mut self, alloc: Global, words: &[&str], out: &mut String) -> Answer {
        let subject = Call::of(words)?;
        let call = subject.inner()?;
        match subject.verb {
            "rule" => theorems::answer(alloc, out, &mut self.theorems, &call),
            "context" => contexts::answer(alloc, out, &mut self.contexts, &call),
            "scope" => scopes::answer(alloc, out, &mut self.scope, &self.sights, &call),
            "proof" => scripts::begin(alloc, &mut self.proofs, &call),
            "step" => scripts::answer(alloc, out, &mut self.proofs, &call),
            subject => of_logic(alloc, out, subject, &call),
        }
    }
}

/// Answers of what stands in the call alone.
fn of_logic(alloc: Global, out: &mut String, subject: &str, call: &Call<'_>) -> Answer {
    match subject {
        "formula" => formulas::answer(alloc, out, call),
        "make" => making::answer(alloc, out, call),
        "marks" => marks::answer(alloc, out, call),
        "print" => printing::answer(alloc, out, call),
        "read" => reading::answer(alloc, out, call),
        "law" => laws::answer(out, call.verb),
        _ => of_proofs(alloc, out, subject, call),
    }
}

/// The same, of proof terms and of commands.
fn of_proofs(alloc: Global, out: &mut String, subject: &str, call: &Call<'_>) -> Answer {
    match subject {
        "term" => terms::answer(alloc, out, call),
        "check" => checks::answer(alloc, out, call),
        "command" => shapes::answer(alloc, out, call),
        "blob" => blobs::answer(alloc, out, call),
        "report" => reports::answer(alloc, out, call),
        _ => Err(Fault::Line),
    }
}
