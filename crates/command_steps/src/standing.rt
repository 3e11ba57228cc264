//! Where the proof of a lemma stands after a command.
ghost use Rattle.std.specs.Prelude.{◌≡◌, IfOk};
ghost use Rattle.isar_rules.specs.Effects.{makes, forking};
ghost use Rattle.isar_rules.specs.Proofs.{stands};
ghost use Rattle.isar_rules.specs.Theories.{with_fact};
ghost use Rattle.isar_rules.specs.declared.state.Place.TheVariants as place;
ghost use Rattle.proof_state.specs.Answers.{is_closed};

use crate::effect::{Effect, makes};
use crate::facts::with_fact;
use isar_rules::{Place, Theory};
use joined_results::each_of_three;
use nj_formula::{Formula, Name};
use proof_state::Proof;
use report_markup::Report;
use sqlite_items::Items;
use std::alloc::{AllocError, Global};

/// The lemma in whose proof a command stands: its theory, its name and what it says.
#[derive(Drop)]
pub struct Lemma<'a> {
    pub theory: &'a Theory,
    pub name: &'a Name,
    pub goal: &'a Formula,
}

/// Whether the goal that was given at the start is closed.
#[tactic(auto, using(crate::proofs::ClosedLemmas::closed_by))]
fn is_closed(proof: &Proof) -> bool
    ensures { result ≡ is_closed proof.now }
{
    let proves = proof.goal().is_some();
    let states = proof.is_state();
    !proves & !states
}

/// The theory has the lemma.
fn proved(alloc: Global, lemma: &Lemma) -> Result<Place, AllocError>
    ensures { IfOk result (λ p. p ≡ place.Theory
        (with_fact lemma.now.name.now lemma.now.goal.now lemma.now.theory.now)) }
{
    let goal = lemma.goal.copy(alloc)?;
    let more = with_fact(alloc, lemma.theory, lemma.name, goal)?;
    Ok(Place::Theory(more))
}

/// The lemma by itself, which lends nothing.
#[derive(Drop)]
struct OwnLemma {
    theory: Theory,
    name: Name,
    goal: Formula,
}

/// The same lemma, which shares what it has.
fn held(alloc: Global, lemma: &Lemma) -> Result<OwnLemma, AllocError>
    ensures { IfOk result (λ held. held ≡ record {
      theory = lemma.now.theory.now;
      name = lemma.now.name.now;
      goal = lemma.now.goal.now;
    }) }
{
    let copies = each_of_three(
        lemma.theory.copy(alloc),
        lemma.name.copy(alloc),
        lemma.goal.copy(alloc),
    );
    let (theory, name, goal) = copies?;
    Ok(OwnLemma { theory, name, goal })
}

/// The lemma, with its proof so far.
fn with_proof(lemma: OwnLemma, proof: Proof) -> Place
    ensures { result ≡ place.Proof lemma.theory lemma.name lemma.goal proof }
{
    let OwnLemma { theory, name, goal } = lemma;
    Place::Proof {
        theory,
        name,
        goal,
        proof,
    }
}

/// The proof goes on.
fn open(alloc: Global, lemma: &Lemma, proof: Proof) -> Result<Place, AllocError>
    ensures { IfOk result (λ p. p ≡ place.Proof
        lemma.now.theory.now lemma.now.name.now lemma.now.goal.now proof) }
{
    match held(alloc, lemma) {
        Ok(held) => Ok(with_proof(held, proof)),
        Err(fault) => {
            drop(proof);
            Err(fault)
        }
    }
}

/// Where the proof stands: once it is closed, the theory has the lemma.
fn stands(alloc: Global, lemma: &Lemma, proof: Proof) -> Result<Place, AllocError>
    ensures { IfOk result (λ p. p
        ≡ stands lemma.now.theory.now lemma.now.name.now lemma.now.goal.now proof) }
{
    if is_closed(&proof) {
        drop(proof);
        proved(alloc, lemma)
    } else {
        open(alloc, lemma, proof)
    }
}

/// What a command makes that left the proof so, and does not fork.
pub(crate) fn concluded(
    alloc: Global,
    lemma: &Lemma,
    after: Proof,
    reports: Items<Report>,
) -> Result<Effect, AllocError>
    ensures { IfOk result (λ effect. effect ≡ makes
        (stands lemma.now.theory.now lemma.now.name.now lemma.now.goal.now after) reports) }
{
    let place = stands(alloc, lemma, after)?;
    Ok(makes(place, reports))
}

/// What a command makes that left the proof so, and forks.
pub(crate) fn forked(alloc: Global, lemma: &Lemma, after: Proof) -> Result<Effect, AllocError>
    ensures { IfOk result (λ effect. effect ≡ forking
        (stands lemma.now.theory.now lemma.now.name.now lemma.now.goal.now after)) }
{
    Ok(Effect {
        place: stands(alloc, lemma, after)?,
        reports: Items::new(alloc),
        forks: true,
    })
}
