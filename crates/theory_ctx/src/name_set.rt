ghost use Rattle.std.specs.Prelude.{◌≡◌, ℕ, List, [], ◌||◌, map, IfOk, OnOk};
ghost use Rattle.std.specs.Str.{bytes_eq};
ghost use Rattle.nj_formula.specs.Meaning.{meaning};
ghost use Rattle.nj_formula.specs.Free.{is_free};
ghost use Rattle.theory_ctx.specs.NameSets.{has_name, with_name, with_argument, with_all, with_free};

use crate::key::{Key, Spelled};
use nj_formula::{Argument, Formula, Name};
use shared_map::SharedMap;
use std::alloc::{AllocError, Global};
use std::marker::Model;

/// A persistent set of names, as of those that are free in some formulas. A copy shares all with
/// its source, and a change all but one path for each name that comes in.
#[derive(Drop)]
pub struct NameSet {
    names: SharedMap<Key, ()>,
}

impl Model for NameSet {
    ghost use Rattle.theory_ctx.specs.NameSets.{Names};

    ghost Value = { Names };

    ghost view = { λ set. set.names };
}

impl NameSet {
    /// The set of no names, which takes no memory.
    pub fn new() -> NameSet
        ensures { result ≡ [] }
    {
        NameSet {
            names: SharedMap::new(),
        }
    }

    /// The same set, in the same memory.
    pub fn copy(&self) -> Result<NameSet, AllocError>
        ensures { IfOk result (λ set. set ≡ self.now) }
    {
        Ok(NameSet {
            names: self.names.copy()?,
        })
    }

    /// Whether the name is in it.
    pub fn has(&self, name: &str) -> bool
        ensures { result ≡ has_name self.now name.now }
    {
        self.names.first_in(&Spelled { name }).is_some()
    }

    /// The set with this name too.
    pub fn with(&self, alloc: Global, name: &Name) -> Result<NameSet, AllocError>
        ensures { IfOk result (λ set. (x : List ℕ)
            → has_name set x ≡ (bytes_eq name.now x || has_name self.now x)) }
    {
        let mut set = self.copy()?;
        set.add(alloc, name)?;
        Ok(set)
    }

    /// The set with the names too that are free in the formula.
    pub fn with_formula(&self, alloc: Global, formula: &Formula) -> Result<NameSet, AllocError>
        ensures { IfOk result (λ set. (x : List ℕ)
            → has_name set x ≡ (is_free x (meaning formula.now) || has_name self.now x)) }
    {
        let mut set = self.copy()?;
        add_formula(alloc, &mut set, formula)?;
        Ok(set)
    }

    /// The names of both. Of a small set and a large one it takes time that depends on the small
    /// one, but for a logarithm.
    pub fn union(&self, alloc: Global, other: &NameSet) -> Result<NameSet, AllocError>
        ensures { IfOk result (λ set. (x : List ℕ)
            → has_name set x ≡ (has_name self.now x || has_name other.now x)) }
    {
        let names = self.names.union(alloc, &other.names)?;
        Ok(NameSet { names })
    }

    fn add(&mut self, alloc: Global, name: &Name) -> Result<(), AllocError>
        ensures { OnOk result (self.new ≡ with_name name.now self.old) }
    {
        if self.has(name.as_str()) {
            return Ok(());
        }
        let key = Key::copied(alloc, name)?;
        self.names.set(alloc, key, ())
    }
}

/// Adds the names that stand in the argument.
#[cycle(names)]
fn add_argument(alloc: Global, set: &mut NameSet, argument: &Argument) -> Result<(), AllocError>
    ensures { OnOk result (set.new ≡ with_argument argument.now set.old) }
{
    match argument {
        Argument::Free(name) => set.add(alloc, name),
        Argument::Bound(_) => Ok(()),
        Argument::Apply(_, arguments) => add_arguments(alloc, set, arguments.get().as_slice()),
    }
}

#[cycle(names)]
fn add_arguments(alloc: Global, set: &mut NameSet, arguments: &[Argument]) -> Result<(), AllocError>
    ensures { OnOk result (set.new ≡ with_all (map with_argument arguments.now) set.old) }
{
    for argument in arguments {
        add_argument(alloc, set, argument)?;
    }
    Ok(())
}

/// Adds the names that are free in the formula.
fn add_formula(alloc: Global, set: &mut NameSet, formula: &Formula) -> Result<(), AllocError>
    ensures { OnOk result (set.new ≡ with_free (meaning formula.now) set.old) }
{
    match formula {
        Formula::False => Ok(()),
        Formula::Atom(_, arguments) => add_arguments(alloc, set, arguments.get().as_slice()),
        Formula::Not(a) | Formula::All(_, a) | Formula::Exists(_, a) => {
            add_formula(alloc, set, a.get())
        }
        Formula::And(a, b) | Formula::Or(a, b) | Formula::Implies(a, b) => {
            add_formula(alloc, set, a.get())?;
            add_formula(alloc, set, b.get())
        }
    }
}
