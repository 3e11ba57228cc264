ghost use Rattle.std.specs.Prelude.{◌≡◌, [], ◌∷◌, IfOk, length, slice_get};
ghost use Rattle.std.specs.Option.{option_copied};
ghost use Rattle.theory_ctx.specs.Locals.{first_named, AreFirst};

use crate::key::{Key, Spelled};
use crate::local::Local;
use joined_results::{both, each_of_three};
use nj_formula::{Formula, Name};
use shared_map::{SharedList, SharedMap};
use std::alloc::{AllocError, Global};
use std::marker::Model;

/// The local facts of a block, the newest first. Contracts see them as this list. A copy shares all
/// with its source, and a list with one more shares all but two paths.
#[derive(Drop)]
pub struct Locals {
    all: SharedList<Local>,
    /// The newest one of each name.
    newest: SharedMap<Key, Local>,
}

impl Model for Locals {
    ghost use Rattle.std.specs.Prelude.{List};
    ghost use Rattle.std.specs.Coded.{codes};
    ghost use Rattle.nj_formula.specs.contracts.formula.Formula as formula;
    ghost use Rattle.theory_ctx.specs.declared.local.Local.{Local as Held};
    ghost use Rattle.theory_ctx.specs.Locals.{AreFirst};

    ghost Value = { List Held };

    ghost coded = { Prim.hlevel (codes, formula.the_row.coded) };

    ghost view = { λ locals. locals.all };

    ghost invariant = { λ locals. AreFirst locals.newest locals.all };
}

impl Locals {
    /// No local facts, which take no memory.
    pub fn new() -> Locals
        ensures { result ≡ [] }
    {
        Locals {
            all: SharedList::new(),
            newest: SharedMap::new(),
        }
    }

    /// The same local facts, in the same memory.
    pub fn copy(&self) -> Result<Locals, AllocError>
        ensures { IfOk result (λ locals. locals ≡ self.now) }
    {
        let (all, newest) = both(self.all.copy(), self.newest.copy())?;
        Ok(Locals { all, newest })
    }

    /// How many they are.
    pub fn len(&self) -> usize
        ensures { result ≡ length self.now }
    {
        self.all.len()
    }

    /// The local fact at this place, from 0 for the newest.
    pub fn get(&self, place: usize) -> Option<&Local>
        ensures { option_copied result ≡ slice_get self.now place }
    {
        self.all.get(place)
    }

    /// The newest one of this name.
    pub fn first_named(&self, name: &str) -> Option<&Local>
        ensures { option_copied result ≡ first_named name.now self.now }
    {
        match self.newest.first_in(&Spelled { name }) {
            None => None,
            Some((_, local)) => Some(local),
        }
    }

    /// These and a newer one.
    pub fn with_first(
        &self,
        alloc: Global,
        name: &Name,
        formula: &Formula,
    ) -> Result<Locals, AllocError>
        ensures { IfOk result (λ locals. locals
            ≡ record { name = name.now; formula = formula.now } ∷ self.now) }
    {
        let all = self.all_with(alloc, name, formula);
        let (all, newest) = both(all, self.newest_with(alloc, name, formula))?;
        Ok(Locals { all, newest })
    }

    fn all_with(
        &self,
        alloc: Global,
        name: &Name,
        formula: &Formula,
    ) -> Result<SharedList<Local>, AllocError>
        ensures { IfOk result (λ all. all
            ≡ record { name = name.now; formula = formula.now } ∷ self.now) }
    {
        self.all.with_first(alloc, local(alloc, name, formula)?)
    }

    fn newest_with(
        &self,
        alloc: Global,
        name: &Name,
        formula: &Formula,
    ) -> Result<SharedMap<Key, Local>, AllocError>
        ensures { IfOk result (λ newest. AreFirst newest
            (record { name = name.now; formula = formula.now } ∷ self.now)) }
    {
        let (mut newest, key, local) = each_of_three(
            self.newest.copy(),
            Key::copied(alloc, name),
            local(alloc, name, formula),
        )?;
        newest.set(alloc, key, local)?;
        Ok(newest)
    }
}

fn local(alloc: Global, name: &Name, formula: &Formula) -> Result<Local, AllocError>
    ensures { IfOk result (λ local. local ≡ record { name = name.now; formula = formula.now }) }
{
    let (name, formula) = both(name.copy(alloc), formula.copy(alloc))?;
    Ok(Local { name, formula })
}
