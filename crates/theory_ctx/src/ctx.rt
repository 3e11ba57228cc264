ghost use Rattle.std.specs.Prelude.{◌≡◌, ℕ, List, [], ◌∷◌, ◌↔◌, Some, IsSome, is_some, IfOk, OnOk, OnErr, map, option_map, if◌then◌else◌};
ghost use Rattle.std.specs.List.{list_any};
ghost use Rattle.nj_formula.specs.Meaning.{meaning};
ghost use Rattle.nj_formula.specs.Free.{is_free};
ghost use Rattle.shared_map.specs.Pairs.{IsSorted};
ghost use Rattle.shared_map.specs.Lent.{lent};
ghost use Rattle.theory_ctx.specs.Facts.{Fact, fact_of, is_called};
ghost use Rattle.theory_ctx.specs.Answers.{told_answer};
ghost use Rattle.theory_ctx.specs.Looked.{among, looked};
ghost use Rattle.theory_ctx.specs.Merged.{extended_facts, merged_facts};
ghost use Rattle.theory_ctx.specs.Order.{by_name, to_name};
ghost use Rattle.shared_map.specs.Changes.{united};
ghost use Rattle.shared_map.specs.Cuts.{within};

use crate::called::{Called, Named};
use crate::cited::Cited;
use crate::fact_name::FactName;
use crate::lookup::Lookup;
use crate::name_set::NameSet;
use joined_results::both;
use nj_formula::{Formula, Name};
use shared_map::{Entries, SharedMap};
use std::alloc::{AllocError, Global};
use std::marker::Model;
use std::mem::replace;

/// Why a fact was not added.
#[derive(Clone, Copy, Debug, PartialEq, Eq)]
pub enum AddError {
    /// The theory has a fact of this name.
    Taken,
    NoMemory,
}

impl From<AllocError> for AddError {
    ghost use Rattle.std.specs.Prelude.{◌≡◌};
    ghost use Rattle.theory_ctx.specs.declared.ctx.AddError.TheVariants.{NoMemory};

    ghost from_gives = { λ _ error. error ≡ NoMemory };

    fn from(_: AllocError) -> AddError {
        AddError::NoMemory
    }
}

/// The facts that a theory sees: its own and those of its imports. Contracts see it as their list,
/// sorted by name and then by theory; no two of them have one theory and one name. A context that
/// is copied, extended or merged shares its facts.
#[derive(Drop)]
pub struct Ctx {
    facts: SharedMap<FactName, Formula>,
    /// All names that are free in a fact; one that was free in a fact that is gone may be left.
    free: NameSet,
}

impl Model for Ctx {
    ghost use Rattle.std.specs.Prelude.{List};
    ghost use Rattle.theory_ctx.specs.Facts.{Fact};
    ghost use Rattle.theory_ctx.specs.NameSets.{CoversAll};
    ghost use Rattle.nj_formula.specs.contracts.formula.Formula as formula;
    ghost use Rattle.std.specs.Coded.{codes};

    ghost Value = { List Fact };

    ghost coded = { Prim.hlevel (codes, formula.the_row.coded) };

    ghost view = { λ ctx. ctx.facts };

    ghost invariant = { λ ctx. CoversAll ctx.free ctx.facts };
}

impl Ctx {
    /// The context of no facts, which takes no memory.
    pub fn new() -> Ctx
        ensures { result ≡ [] }
    {
        Ctx {
            facts: SharedMap::new(),
            free: NameSet::new(),
        }
    }

    /// The same context, in the same memory.
    pub fn copy(&self) -> Result<Ctx, AllocError>
        ensures { IfOk result (λ ctx. ctx ≡ self.now) }
    {
        let (facts, free) = both(self.facts.copy(), self.free.copy())?;
        Ok(Ctx { facts, free })
    }

    /// Adds a fact of a theory. It is `Taken` where the theory has a fact of this name already. At
    /// an error the context is as before.
    pub fn add(
        &mut self,
        alloc: Global,
        theory: &Name,
        name: &Name,
        formula: Formula,
    ) -> Result<(), AddError>
        ensures ok { OnOk result (self.new
            ≡ extended_facts (record { name = name.now; theory = theory.now }, formula) self.old) }
        ensures sorted { OnOk result (IsSorted by_name self.new) }
        ensures taken { (result ≡ Err AddError.Taken)
            ↔ IsSome (fact_of theory.now name.now self.old) }
        ensures err { OnErr result (self.new ≡ self.old) }
    {
        if self.has(theory.as_str(), name.as_str()) {
            drop(formula);
            return Err(AddError::Taken);
        }
        self.set(alloc, theory, name, formula)?;
        Ok(())
    }

    /// Puts a fact of a theory in the place of the theory's fact of this name, if there is one. For
    /// want of memory the context is as before.
    pub fn set(
        &mut self,
        alloc: Global,
        theory: &Name,
        name: &Name,
        formula: Formula,
    ) -> Result<(), AllocError>
        ensures ok { OnOk result (self.new
            ≡ extended_facts (record { name = name.now; theory = theory.now }, formula) self.old) }
        ensures sorted { OnOk result (IsSorted by_name self.new) }
        ensures err { OnErr result (self.new ≡ self.old) }
    {
        let fact = FactName::copied(alloc, theory, name);
        let kept = both(fact, self.free.with_formula(alloc, &formula));
        let Ok((fact, free)) = kept else {
            drop(formula);
            return Err(AllocError);
        };
        self.facts.set(alloc, fact, formula)?;
        drop(replace(&mut self.free, free));
        Ok(())
    }

    /// Whether the theory has a fact of this name.
    pub fn has(&self, theory: &str, name: &str) -> bool
        ensures { result ≡ is_some (fact_of theory.now name.now self.now) }
    {
        self.fact(theory, name).is_some()
    }

    /// The facts of all parts. Where two parts have different facts of one theory and one name,
    /// that of the earlier part is kept. What only one part has is shared.
    pub fn merge(alloc: Global, parts: &[&Ctx]) -> Result<Ctx, AllocError>
        ensures { IfOk result (λ ctx. ctx ≡ merged_facts (map (λ part. part.now) parts.now)) }
    {
        let mut ctx = Ctx::new();
        for part in parts {
            let more = ctx.joined(alloc, part);
            drop(replace(&mut ctx, more?));
        }
        Ok(ctx)
    }

    /// The facts of both, of which this context's are kept.
    fn joined(&self, alloc: Global, other: &Ctx) -> Result<Ctx, AllocError>
        ensures { IfOk result (λ ctx. ctx ≡ united by_name self.now other.now) }
    {
        let facts = self.facts.union(alloc, &other.facts);
        let (facts, free) = both(facts, self.free.union(alloc, &other.free))?;
        Ok(Ctx { facts, free })
    }

    /// All facts, sorted by name and then by theory, lent.
    pub fn facts(&self) -> Entries<'_, FactName, Formula>
        ensures all { result ≡ self.now }
        ensures sorted { IsSorted by_name result }
    {
        self.facts.iter()
    }

    /// Whether the name is free in a fact. Where it isn't, and never was, no fact is looked at.
    pub fn has_free(&self, name: &str) -> bool
        ensures { result ≡ list_any (λ fact. is_free name.now (meaning fact.1)) self.now }
    {
        if !self.free.has(name) {
            return false;
        }
        any_has_free(self.facts.iter(), name)
    }

    /// The fact of this name of this theory.
    fn fact(&self, theory: &str, name: &str) -> Option<(&FactName, &Formula)>
        ensures { option_map lent result ≡ fact_of theory.now name.now self.now }
    {
        self.facts.first_in(&Called { theory, name })
    }

    /// What the facts of this name are, whichever theory made them.
    fn named(&self, name: &str) -> Lookup<'_>
        ensures { told_answer result ≡ among (within (to_name name.now) self.now) }
    {
        let mut facts = self.facts.range(&Named { name });
        let Some((first, formula)) = facts.next() else {
            return Lookup::Unknown;
        };
        match facts.next() {
            None => first.found(formula),
            Some((second, _)) => Lookup::Ambiguous {
                first: first.long_name(),
                second: second.long_name(),
            },
        }
    }

    /// The fact that a name means in the theory `theory`. A plain name `n` is first sought among
    /// the theory's own facts, then among those of all others; a long name `T.n` among those of `T`
    /// alone; a name of more parts means none.
    pub fn lookup(&self, theory: &str, name: &str) -> Lookup<'_>
        ensures { told_answer result ≡ looked self.now theory.now name.now }
    {
        match Cited::new(name) {
            Cited::Plain(name) => match self.fact(theory, name) {
                Some((fact, formula)) => fact.found(formula),
                None => self.named(name),
            },
            Cited::Long { theory, name } => match self.fact(theory, name) {
                Some((fact, formula)) => fact.found(formula),
                None => Lookup::Unknown,
            },
            Cited::Longer => Lookup::Unknown,
        }
    }
}

fn any_has_free(facts: Entries<FactName, Formula>, name: &str) -> bool
    ensures { result ≡ list_any (λ fact. is_free name.now (meaning fact.1)) facts.entry }
{
    for (_, formula) in facts {
        if formula.has_free(name) {
            return true;
        }
    }
    false
}
