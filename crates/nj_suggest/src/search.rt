//! The search: a fact that says the goal, else a rule that introduces, else one that eliminates a
//! fact. What is found last is what is looked for first, so nothing is tried behind it.
ghost use Rattle.std.specs.Prelude.{◌≡◌, ◌+◌, ◌∷◌, IfOk, option_map};
ghost use Rattle.std.specs.Option.{option_or};
ghost use Rattle.nj_formula.specs.declared.formula.Formula.{out-Formula};
ghost use Rattle.nj_formula.specs.declared.formula.Formula.TheVariants.{False};
ghost use Rattle.nj_kernel.specs.declared.rule.Rule.TheVariants as R;
ghost use Rattle.proof_terms.specs.declared.term.Term.TheVariants as T;
ghost use Rattle.suggest_rules.specs.Names.{next_name, assuming};
ghost use Rattle.suggest_rules.specs.Search.{if_so, both, is_false, says_same, citing, by_rule, by_cases};
ghost use Rattle.suggest_rules.specs.Search.{introduced, eliminated, by_facts, found_within};

use crate::citing::{cited, says_same};
use crate::eliminations::{
    Case, absurd, case_of, contradicted_by, followed_by, is_false, joined, paired, parted,
};
use crate::naming::{is_usable, next_name, with_own};
use nj_formula::{Formula, Name, Shared};
use nj_kernel::Rule;
use proof_terms::Term;
use sqlite_items::Items;
use std::alloc::{AllocError, Global};
use suggest_rules::Names;
use theory_ctx::Local;

/// The first proof of the goal that is at most so deep.
#[cycle(found)]
pub(crate) fn found(
    alloc: Global,
    aliases: &[Items<char>],
    names: &Names,
    goal: &Formula,
    deep: usize,
) -> Result<Option<Term>, AllocError>
    ensures { IfOk result (λ term. term ≡ found_within aliases.now deep names.now goal.now) }
{
    if deep == 0 {
        return Ok(None);
    }
    if let Some(term) = cited(alloc, names, goal)? {
        return Ok(Some(term));
    }
    if let Some(term) = introduced(alloc, aliases, names, goal, deep - 1)? {
        return Ok(Some(term));
    }
    by_facts(alloc, aliases, names, goal, deep - 1)
}

/// By a rule that introduces.
#[cycle(found)]
fn introduced(
    alloc: Global,
    aliases: &[Items<char>],
    names: &Names,
    goal: &Formula,
    deep: usize,
) -> Result<Option<Term>, AllocError>
    ensures { IfOk result (λ term. term
        ≡ introduced aliases.now (found_within aliases.now deep) names.now (out-Formula goal.now)) }
{
    match goal {
        Formula::Implies(a, b) => implied(alloc, aliases, names, a.get(), b.get(), deep),
        Formula::Not(a) => negated(alloc, aliases, names, a.get(), deep),
        Formula::And(a, b) => conjoined(alloc, aliases, names, a.get(), b.get(), deep),
        Formula::Or(a, b) => disjoined(alloc, aliases, names, a.get(), b.get(), deep),
        Formula::False | Formula::Atom(..) | Formula::All(..) | Formula::Exists(..) => Ok(None),
    }
}

/// `a --> b` by `b` under `a`.
#[cycle(found)]
fn implied(
    alloc: Global,
    aliases: &[Items<char>],
    names: &Names,
    a: &Formula,
    b: &Formula,
    deep: usize,
) -> Result<Option<Term>, AllocError>
    ensures { IfOk result (λ term. term ≡ by_rule aliases.now R.ImpI
        (option_map (T.ImpI (next_name aliases.now names.now))
        (found_within aliases.now deep (assuming aliases.now names.now a.now) b.now))) }
{
    if deep == 0 {
        return Ok(None);
    }
    if !is_usable(aliases, Rule::ImpI) {
        return Ok(None);
    }
    let name = next_name(alloc, aliases, names)?;
    match under(alloc, aliases, names, b, name, a, deep)? {
        Some(case) => Ok(Some(Term::ImpI(case.name, case.part))),
        None => Ok(None),
    }
}

/// `~a` by `False` under `a`.
#[cycle(found)]
fn negated(
    alloc: Global,
    aliases: &[Items<char>],
    names: &Names,
    a: &Formula,
    deep: usize,
) -> Result<Option<Term>, AllocError>
    ensures { IfOk result (λ term. term ≡ by_rule aliases.now R.NotI
        (option_map (T.NotI (next_name aliases.now names.now))
        (found_within aliases.now deep (assuming aliases.now names.now a.now) False))) }
{
    if deep == 0 {
        return Ok(None);
    }
    if !is_usable(aliases, Rule::NotI) {
        return Ok(None);
    }
    let name = next_name(alloc, aliases, names)?;
    match under(alloc, aliases, names, &Formula::False, name, a, deep)? {
        Some(case) => Ok(Some(Term::NotI(case.name, case.part))),
        None => Ok(None),
    }
}

/// `a & b` by both parts.
#[cycle(found)]
fn conjoined(
    alloc: Global,
    aliases: &[Items<char>],
    names: &Names,
    a: &Formula,
    b: &Formula,
    deep: usize,
) -> Result<Option<Term>, AllocError>
    ensures { IfOk result (λ term. term ≡ by_rule aliases.now R.ConjI
        (both T.ConjI (found_within aliases.now deep names.now a.now)
        (found_within aliases.now deep names.now b.now))) }
{
    if !is_usable(aliases, Rule::ConjI) {
        return Ok(None);
    }
    let Some(left) = found(alloc, aliases, names, a, deep)? else {
        return Ok(None);
    };
    beside(alloc, aliases, names, Shared::new(alloc, left)?, b, deep)
}

/// `a & b`, where a proof of `a` is found, by `b`.
#[cycle(found)]
fn beside(
    alloc: Global,
    aliases: &[Items<char>],
    names: &Names,
    left: Shared<Term>,
    b: &Formula,
    deep: usize,
) -> Result<Option<Term>, AllocError>
    ensures { IfOk result (λ term. term
        ≡ option_map (T.ConjI left) (found_within aliases.now deep names.now b.now)) }
{
    match found(alloc, aliases, names, b, deep) {
        Ok(Some(right)) => Ok(Some(paired(alloc, left, right)?)),
        Ok(None) => {
            drop(left);
            Ok(None)
        }
        Err(fault) => {
            drop(left);
            Err(fault)
        }
    }
}

/// `a | b` by `a`, else by `b`.
#[cycle(found)]
fn disjoined(
    alloc: Global,
    aliases: &[Items<char>],
    names: &Names,
    a: &Formula,
    b: &Formula,
    deep: usize,
) -> Result<Option<Term>, AllocError>
    ensures { IfOk result (λ term. term ≡ option_or
        (by_rule aliases.now R.DisjI1
        (option_map T.DisjI1 (found_within aliases.now deep names.now a.now)))
        (by_rule aliases.now R.DisjI2
        (option_map T.DisjI2 (found_within aliases.now deep names.now b.now)))) }
{
    if is_usable(aliases, Rule::DisjI1) {
        if let Some(part) = found(alloc, aliases, names, a, deep)? {
            return Ok(Some(Term::DisjI1(Shared::new(alloc, part)?)));
        }
    }
    if is_usable(aliases, Rule::DisjI2) {
        if let Some(part) = found(alloc, aliases, names, b, deep)? {
            return Ok(Some(Term::DisjI2(Shared::new(alloc, part)?)));
        }
    }
    Ok(None)
}

/// By a rule that eliminates a fact: the first that is found.
#[cycle(found)]
fn by_facts(
    alloc: Global,
    aliases: &[Items<char>],
    names: &Names,
    goal: &Formula,
    deep: usize,
) -> Result<Option<Term>, AllocError>
    ensures { IfOk result (λ term. term
        ≡ by_facts aliases.now (found_within aliases.now deep) names.now goal.now) }
{
    'facts: for local in names.facts.iter() {
        if let Some(term) = eliminated(alloc, aliases, names, goal, local, deep)? {
            return Ok(Some(term));
        }
    }
    Ok(None)
}

/// By a rule that eliminates this fact.
#[cycle(found)]
fn eliminated(
    alloc: Global,
    aliases: &[Items<char>],
    names: &Names,
    goal: &Formula,
    local: &Local,
    deep: usize,
) -> Result<Option<Term>, AllocError>
    ensures { IfOk result (λ term. term ≡ eliminated aliases.now (found_within aliases.now deep)
        names.now goal.now (citing local.now) (out-Formula local.now.formula)) }
{
    match &local.formula {
        Formula::And(a, b) => parted(alloc, aliases, goal, local, a, b),
        Formula::Implies(a, b) => followed(alloc, aliases, names, goal, local, a, b.get(), deep),
        Formula::Not(a) => contradicted(alloc, aliases, names, goal, local, a, deep),
        Formula::Or(a, b) => by_cases(alloc, aliases, names, goal, local, a, b, deep),
        Formula::False => absurd(alloc, aliases, local),
        Formula::Atom(..) | Formula::All(..) | Formula::Exists(..) => Ok(None),
    }
}

/// The goal follows by the fact `a --> b`.
#[cycle(found)]
fn followed(
    alloc: Global,
    aliases: &[Items<char>],
    names: &Names,
    goal: &Formula,
    local: &Local,
    a: &Shared<Formula>,
    b: &Formula,
    deep: usize,
) -> Result<Option<Term>, AllocError>
    ensures { IfOk result (λ term. term ≡ by_rule aliases.now R.ImpE
        (if_so (says_same b.now goal.now) (option_map (T.ImpE a.now (citing local.now))
        (found_within aliases.now deep names.now a.now)))) }
{
    if !says_same(b, goal) || !is_usable(aliases, Rule::ImpE) {
        return Ok(None);
    }
    let Some(part) = found(alloc, aliases, names, a.get(), deep)? else {
        return Ok(None);
    };
    Ok(Some(followed_by(alloc, local, a, part)?))
}

/// The goal `False` follows by the fact `~a`.
#[cycle(found)]
fn contradicted(
    alloc: Global,
    aliases: &[Items<char>],
    names: &Names,
    goal: &Formula,
    local: &Local,
    a: &Shared<Formula>,
    deep: usize,
) -> Result<Option<Term>, AllocError>
    ensures { IfOk result (λ term. term ≡ by_rule aliases.now R.NotE
        (if_so (is_false (out-Formula goal.now)) (option_map (T.NotE a.now (citing local.now))
        (found_within aliases.now deep names.now a.now)))) }
{
    if !is_false(goal) || !is_usable(aliases, Rule::NotE) {
        return Ok(None);
    }
    let Some(part) = found(alloc, aliases, names, a.get(), deep)? else {
        return Ok(None);
    };
    Ok(Some(contradicted_by(alloc, local, a, part)?))
}

/// The goal where this side of a fact, or of the goal, is assumed under the name.
#[cycle(found)]
fn under(
    alloc: Global,
    aliases: &[Items<char>],
    names: &Names,
    goal: &Formula,
    name: Name,
    side: &Formula,
    deep: usize,
) -> Result<Option<Case>, AllocError>
    ensures { IfOk result (λ found. found ≡ option_map
        (λ part. record { name = name; part = part })
        (found_within aliases.now deep (record {
          own = names.now.own + 1;
          facts = record { name = name; formula = side.now } ∷ names.now.facts;
        }) goal.now)) }
{
    let inside = with_own(alloc, names, &name, side)?;
    let part = found(alloc, aliases, &inside, goal, deep);
    drop(inside);
    match part? {
        Some(part) => Ok(Some(case_of(alloc, name, part)?)),
        None => Ok(None),
    }
}

/// The goal follows in both cases of the fact `a | b`.
#[cycle(found)]
fn by_cases(
    alloc: Global,
    aliases: &[Items<char>],
    names: &Names,
    goal: &Formula,
    local: &Local,
    a: &Shared<Formula>,
    b: &Shared<Formula>,
    deep: usize,
) -> Result<Option<Term>, AllocError>
    ensures { IfOk result (λ term. term ≡ by_rule aliases.now R.DisjE (by_cases aliases.now
        (found_within aliases.now deep) names.now goal.now (citing local.now) a.now b.now)) }
{
    if deep == 0 {
        return Ok(None);
    }
    if !is_usable(aliases, Rule::DisjE) {
        return Ok(None);
    }
    let name = next_name(alloc, aliases, names)?;
    let own = name.copy(alloc)?;
    let Some(left) = under(alloc, aliases, names, goal, own, a.get(), deep)? else {
        return Ok(None);
    };
    match under(alloc, aliases, names, goal, name, b.get(), deep) {
        Ok(Some(right)) => Ok(Some(joined(alloc, local, a, b, left, right)?)),
        Ok(None) => {
            drop(left);
            Ok(None)
        }
        Err(fault) => {
            drop(left);
            Err(fault)
        }
    }
}
