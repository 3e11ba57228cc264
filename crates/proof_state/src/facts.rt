ghost use Rattle.std.specs.Prelude.{◌≡◌, [], ◌∷◌, IfOk};
ghost use Rattle.std.specs.List.{cons_option, list_any};
ghost use Rattle.proof_state.specs.Fresh.{is_in};
ghost use Rattle.proof_state.specs.Named.{as_local, named_facts};
ghost use Rattle.proof_state.specs.Kept.{AreFree};

use crate::local_fact::LocalFact;
use joined_results::{both, each_of_three};
use shared_map::{ListItems, SharedList};
use std::alloc::{AllocError, Global};
use std::marker::Model;
use theory_ctx::{Locals, NameSet};

/// The assumptions and facts of a block, the newest first. Contracts see them as this list. A copy
/// shares all with its source.
#[derive(Drop)]
pub(crate) struct Facts {
    all: SharedList<LocalFact>,
    /// Those that have names.
    cited: Locals,
    /// The names that are free in them.
    free: NameSet,
}

impl Model for Facts {
    ghost use Rattle.std.specs.Prelude.{◌≡◌, List};
    ghost use Rattle.std.specs.Coded.{codes};
    ghost use Rattle.nj_formula.specs.contracts.formula.Formula as formula;
    ghost use Rattle.proof_state.specs.declared.local_fact.LocalFact.{LocalFact as Held};
    ghost use Rattle.proof_state.specs.Named.{named_facts};
    ghost use Rattle.proof_state.specs.Kept.{AreFree};

    ghost Value = { List Held };

    ghost coded = { Prim.hlevel (codes, formula.the_row.coded) };

    ghost view = { λ facts. facts.all };

    ghost invariant = { λ facts. (facts.cited ≡ named_facts facts.all) × AreFree facts.free
        facts.all };
}

impl Facts {
    /// No facts, which take no memory.
    pub(crate) fn new() -> Facts
        ensures { result ≡ [] }
    {
        Facts {
            all: SharedList::new(),
            cited: Locals::new(),
            free: NameSet::new(),
        }
    }

    /// The same facts, in the same memory.
    pub(crate) fn copy(&self) -> Result<Facts, AllocError>
        ensures { IfOk result (λ facts. facts ≡ self.now) }
    {
        let copies = each_of_three(self.all.copy(), self.cited.copy(), self.free.copy());
        let (all, cited, free) = copies?;
        Ok(Facts { all, cited, free })
    }

    /// These and a newer one.
    pub(crate) fn with_first(&self, alloc: Global, fact: LocalFact) -> Result<Facts, AllocError>
        ensures { IfOk result (λ facts. facts ≡ fact ∷ self.now) }
    {
        let kept = self.kept_with(alloc, &fact);
        let (all, (cited, free)) = both(self.all.with_first(alloc, fact), kept)?;
        Ok(Facts { all, cited, free })
    }

    /// What is kept beside these facts and this one.
    fn kept_with(&self, alloc: Global, fact: &LocalFact) -> Result<(Locals, NameSet), AllocError>
        ensures { IfOk result (λ kept. (kept.0 ≡ named_facts (fact.now ∷ self.now))
            × AreFree kept.1 (fact.now ∷ self.now)) }
    {
        let free = self.free.with_formula(alloc, fact.formula.get());
        let (cited, free) = both(with_named(alloc, &self.cited, fact), free)?;
        Ok((cited, free))
    }

    /// They themselves, lent.
    pub(crate) fn iter(&self) -> ListItems<'_, LocalFact>
        ensures { result ≡ self.now }
    {
        self.all.iter()
    }

    /// Those that have names.
    pub(crate) fn named(&self) -> &Locals
        ensures { result.now ≡ named_facts self.now }
    {
        &self.cited
    }

    /// Whether the name is free in one of them.
    pub(crate) fn has_free(&self, name: &str) -> bool
        ensures { result ≡ list_any (λ fact. is_in name.now fact.formula) self.now }
    {
        self.free.has(name)
    }
}

/// The local facts and this one, if it has a name.
fn with_named(alloc: Global, locals: &Locals, fact: &LocalFact) -> Result<Locals, AllocError>
    ensures { IfOk result (λ more. more ≡ cons_option (as_local fact.now) locals.now) }
{
    match &fact.name {
        Some(name) => locals.with_first(alloc, name, fact.formula.get()),
        None => locals.copy(),
    }
}
