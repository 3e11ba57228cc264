ghost use Rattle.std.specs.Prelude.{◌≡◌, [], ◌==◌, length, ◌↔◌, IsSome, Some, None, is_some, option_map, IfOk, OnOk, OnErr, IsTrue, find, position, slice_get, if◌then◌else◌};
ghost use Rattle.std.specs.Option.{option_copied, option_or};
ghost use Rattle.std.specs.Ordering.{is_eq};
ghost use Rattle.shared_map.specs.Pairs.{IsSorted, found};
ghost use Rattle.shared_map.specs.Cuts.{within};
ghost use Rattle.shared_map.specs.Changes.{put, without, united};
ghost use Rattle.shared_map.specs.Lent.{lent};

use crate::change::{union_of, with_new, without_key};
use crate::cut::{Cut, Exactly};
use crate::entries::Entries;
use crate::search::{count_before, count_behind, first_in};
use crate::tree::Tree;
use std::alloc::{AllocError, Global};
use std::cmp::Ordering;
use std::marker::Model;
use std::mem::replace;

/// Why a pair was not inserted.
#[derive(Clone, Copy, Debug, PartialEq, Eq)]
pub enum InsertError {
    /// The map has the key.
    Taken,
    NoMemory,
}

impl From<AllocError> for InsertError {
    ghost use Rattle.std.specs.Prelude.{◌≡◌};
    ghost use Rattle.shared_map.specs.declared.map.InsertError.TheVariants.{NoMemory};

    ghost from_gives = { λ _ error. error ≡ NoMemory };

    fn from(_: AllocError) -> InsertError {
        InsertError::NoMemory
    }
}

/// A persistent ordered map. Contracts see it as the list of its pairs, sorted by key. A copy
/// shares all with its source, and a change all but one path, so the old version costs nothing to
/// keep.
#[derive(Drop)]
pub struct SharedMap<K: Ord, V> {
    pairs: Tree<(K, V)>,
}

impl<K: Ord, V> Model for SharedMap<K, V> {
    ghost use Rattle.std.specs.Prelude.{List};
    ghost use Rattle.shared_map.specs.Pairs.{IsSorted};

    ghost Value = { List (K × V) };

    ghost view = { λ map. map.pairs };

    ghost invariant = { λ map. IsSorted K.cmp map.pairs };
}

impl<K: Ord + Drop, V: Drop> SharedMap<K, V> {
    /// The map of no pairs, which takes no memory.
    pub fn new() -> SharedMap<K, V>
        ensures { result ≡ [] }
    {
        SharedMap { pairs: Tree::new() }
    }

    /// The same map, in the same memory.
    pub fn copy(&self) -> Result<SharedMap<K, V>, AllocError>
        ensures { IfOk result (λ map. map ≡ self.now) }
    {
        Ok(SharedMap {
            pairs: self.pairs.copy()?,
        })
    }

    /// How many pairs it has.
    pub fn len(&self) -> usize
        ensures { result ≡ length self.now }
    {
        self.pairs.len()
    }

    /// Whether it has no pairs.
    pub fn is_empty(&self) -> bool
        ensures { result ≡ (length self.now == 0) }
    {
        self.pairs.len() == 0
    }

    /// The value at the key.
    pub fn get(&self, key: &K) -> Option<&V>
        ensures { option_copied result ≡ found K.cmp key.now self.now }
    {
        match first_in(&self.pairs, &Exactly(key)) {
            None => None,
            Some(pair) => Some(&pair.1),
        }
    }

    /// The pair at this place in the order of the keys, from 0.
    pub fn at(&self, place: usize) -> Option<(&K, &V)>
        ensures { option_map lent result ≡ slice_get self.now place }
    {
        match self.pairs.get(place) {
            None => None,
            Some(pair) => Some((&pair.0, &pair.1)),
        }
    }

    /// The place of the first pair within the cut, from 0.
    pub fn place_in<C: Cut<K>>(&self, cut: &C) -> Option<usize>
        ensures { result ≡ position (λ pair. is_eq (C.place cut.now pair.0)) self.now }
    {
        let place = count_before(&self.pairs, cut);
        match self.pairs.get(place) {
            None => None,
            Some(pair) => match cut.place(&pair.0) {
                Ordering::Equal => Some(place),
                Ordering::Less | Ordering::Greater => None,
            },
        }
    }

    /// The first pair within the cut.
    pub fn first_in<C: Cut<K>>(&self, cut: &C) -> Option<(&K, &V)>
        ensures { option_map lent result ≡ find (λ pair. is_eq (C.place cut.now pair.0)) self.now }
    {
        match first_in(&self.pairs, cut) {
            None => None,
            Some(pair) => Some((&pair.0, &pair.1)),
        }
    }

    /// All pairs, in the order of their keys.
    pub fn iter(&self) -> Entries<'_, K, V>
        ensures all { result ≡ self.now }
        ensures sorted { IsSorted K.cmp result }
    {
        Entries {
            pairs: &self.pairs,
            from: 0,
            to: self.pairs.len(),
        }
    }

    /// The pairs within the cut, in the order of their keys.
    pub fn range<C: Cut<K>>(&self, cut: &C) -> Entries<'_, K, V>
        ensures { result ≡ within (C.place cut.now) self.now }
    {
        let from = count_before(&self.pairs, cut);
        let behind = count_behind(&self.pairs, cut);
        Entries {
            pairs: &self.pairs,
            from,
            to: self.pairs.len() - behind,
        }
    }

    /// Adds a pair, unless the map has the key: then it is `Taken`. At an error the map is as
    /// before.
    pub fn insert(&mut self, alloc: Global, key: K, value: V) -> Result<(), InsertError>
        ensures ok { OnOk result (self.new ≡ put K.cmp (key, value) self.old) }
        ensures found { OnOk result ((other : K) → found K.cmp other self.new
            ≡ (if is_eq (K.cmp key other) then Some value else found K.cmp other self.old)) }
        ensures taken { (result ≡ Err InsertError.Taken) ↔ IsSome (found K.cmp key self.old) }
        ensures err { OnErr result (self.new ≡ self.old) }
        ensures sorted { OnOk result (IsSorted K.cmp self.new) }
    {
        if self.get(&key).is_some() {
            return Err(InsertError::Taken);
        }
        self.set(alloc, key, value)?;
        Ok(())
    }

    /// Puts a pair in the place of the pair that has the key, if there is one. For want of memory
    /// the map is as before.
    pub fn set(&mut self, alloc: Global, key: K, value: V) -> Result<(), AllocError>
        ensures ok { OnOk result (self.new ≡ put K.cmp (key, value) self.old) }
        ensures found { OnOk result ((other : K) → found K.cmp other self.new
            ≡ (if is_eq (K.cmp key other) then Some value else found K.cmp other self.old)) }
        ensures err { OnErr result (self.new ≡ self.old) }
        ensures sorted { OnOk result (IsSorted K.cmp self.new) }
    {
        let pairs = with_new(alloc, &self.pairs, key, value)?;
        drop(replace(&mut self.pairs, pairs));
        Ok(())
    }

    /// Takes the pair of the key out, and tells whether there was one. For want of memory the map
    /// is as before.
    pub fn remove(&mut self, alloc: Global, key: &K) -> Result<bool, AllocError>
        ensures ok { OnOk result (self.new ≡ without K.cmp key.now self.old) }
        ensures found { OnOk result ((other : K) → found K.cmp other self.new
            ≡ (if is_eq (K.cmp key.now other) then None else found K.cmp other self.old)) }
        ensures had { IfOk result (λ had. had ≡ is_some (found K.cmp key.now self.old)) }
        ensures err { OnErr result (self.new ≡ self.old) }
        ensures sorted { OnOk result (IsSorted K.cmp self.new) }
    {
        if first_in(&self.pairs, &Exactly(key)).is_none() {
            return Ok(false);
        }
        let pairs = without_key(alloc, &self.pairs, key)?;
        drop(replace(&mut self.pairs, pairs));
        Ok(true)
    }

    /// The pairs of both. Where both have a key, this map's pair is kept. What only one of them has
    /// is shared, so that a small map is united with a large one in time that depends on the small
    /// one, but for a logarithm.
    pub fn union(
        &self,
        alloc: Global,
        other: &SharedMap<K, V>,
    ) -> Result<SharedMap<K, V>, AllocError>
        ensures pairs { IfOk result (λ map. map ≡ united K.cmp self.now other.now) }
        ensures found { IfOk result (λ map. (key : K) → found K.cmp key map
            ≡ option_or (found K.cmp key self.now) (found K.cmp key other.now)) }
        ensures sorted { IfOk result (λ map. IsSorted K.cmp map) }
    {
        let pairs = union_of(alloc, &self.pairs, &other.pairs)?;
        Ok(SharedMap { pairs })
    }
}
