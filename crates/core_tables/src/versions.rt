//! The live versions.
ghost use Rattle.std.specs.Prelude.{◌≡◌, ◌+◌, ◌<◌, ◌≤◌, [], ◌∷◌, ◌++◌, length, not, find, None, OnOk, OnErr};
ghost use Rattle.std.specs.Option.{option_copied};
ghost use Rattle.std.specs.List.{list_any};
ghost use Rattle.core_tables.specs.Live.{version_of, is_live, tip_of, tip_id, is_tip};
ghost use Rattle.core_tables.specs.Removal.{removing, left};

use crate::version::Version;
use pide_base::VersionId;
use std::alloc::{AllocError, Global};
use std::marker::Model;

/// A live version, with its id.
#[derive(Debug, Drop)]
pub struct Live<V> {
    pub id: VersionId,
    pub version: Version<V>,
}

/// What asking to remove versions came to.
#[derive(Clone, Copy, Debug, PartialEq, Eq)]
pub enum Removing {
    /// All of them were live, none was the tip, and they are live no more.
    Removed,
    /// The first of them that is not live.
    Unknown(VersionId),
    /// All of them are live, and one is the tip.
    Tip,
}

/// The live versions, the newest of which is the tip. Contracts see the start, which is the tip
/// until the first version is pushed and is not live; the live versions, oldest first; and the
/// room: how many more can be pushed without memory.
#[derive(Debug, Drop)]
pub struct Versions<V> {
    start: Version<V>,
    live: Vec<Live<V>>,
}

impl<V> Model for Versions<V> {
    ghost use Rattle.std.specs.Prelude.{◌-◌, vec_len, vec_capacity};
    ghost use Rattle.core_tables.specs.Live.{History};

    ghost Value = { History V };

    ghost view = { λ versions. record {
      start = versions.start;
      live = versions.live.items;
      room = vec_capacity versions.live - vec_len versions.live;
    } };
}

impl<V> Versions<V> {
    /// No version is live, and the start is the tip. It takes no memory.
    pub fn new(alloc: Global, start: Version<V>) -> Versions<V>
        ensures start { result.start ≡ start }
        ensures live { result.live ≡ [] }
    {
        Versions {
            start,
            live: Vec::new(alloc),
        }
    }

    /// How many versions are live.
    pub fn len(&self) -> usize
        ensures { result ≡ length self.now.live }
    {
        self.live.len()
    }

    /// The live versions, oldest first.
    pub fn live(&self) -> &[Live<V>]
        ensures { result.now ≡ self.now.live }
    {
        &self.live
    }

    /// The newest version: the one that was pushed last, or the start.
    pub fn tip(&self) -> &Version<V>
        ensures { result.now ≡ tip_of self.now }
    {
        match self.live.last() {
            Some(live) => &live.version,
            None => &self.start,
        }
    }

    /// The tip's id: None exactly until a version is pushed.
    pub fn tip_id(&self) -> Option<VersionId>
        ensures { result ≡ tip_id self.now.live }
    {
        self.live.last().map(|live| live.id)
    }

    /// The live version of this id: None exactly where none is.
    pub fn get(&self, id: VersionId) -> Option<&Version<V>>
        ensures { option_copied result ≡ version_of self.now.live id }
    {
        match self.live.iter().find(|live| live.id == id) {
            Some(live) => Some(&live.version),
            None => None,
        }
    }

    /// Makes room for so many more versions. At an error all is as before.
    pub fn reserve(&mut self, count: usize) -> Result<(), AllocError>
        ensures start { self.new.start ≡ self.old.start }
        ensures live { self.new.live ≡ self.old.live }
        ensures ok { OnOk result (count ≤ self.new.room) }
        ensures err { OnErr result (self.new ≡ self.old) }
    {
        self.live.reserve(count)
    }

    fn is_live(&self, id: VersionId) -> bool
        ensures { result ≡ is_live self.now.live id }
    {
        self.get(id).is_some()
    }

    fn is_tip(&self, id: VersionId) -> bool
        ensures { result ≡ is_tip self.now.live id }
    {
        match self.tip_id() {
            Some(tip) => id == tip,
            None => false,
        }
    }

    fn first_unknown(&self, ids: &[VersionId]) -> Option<VersionId>
        ensures { result ≡ find (λ id. not (is_live self.now.live id)) ids.now }
    {
        ids.iter().copied().find(|id| !self.is_live(*id))
    }

    fn names_tip(&self, ids: &[VersionId]) -> bool
        ensures { result ≡ list_any (λ id. is_tip self.now.live id) ids.now }
    {
        ids.iter().any(|id| self.is_tip(*id))
    }
}

impl<V: Drop> Versions<V> {
    /// Adds a version as the tip, in room that was made. It takes no memory.
    pub fn push(&mut self, id: VersionId, version: Version<V>)
        requires room { 0 < self.old.room }
        requires fresh { version_of self.old.live id ≡ None }
        ensures start { self.new.start ≡ self.old.start }
        ensures live { self.new.live ≡ self.old.live ++ record { id = id; version = version } ∷ [] }
        ensures room { self.old.room ≤ self.new.room + 1 }
    {
        if self.live.push(Live { id, version }).is_err() {
            unreachable!()
        }
    }

    /// Removes versions, which are freed where nobody else knows them. It takes no memory, and
    /// removes all of them or none.
    pub fn remove(&mut self, ids: &[VersionId]) -> Removing
        ensures answer { result ≡ removing self.old.live ids.now }
        ensures live { self.new.live ≡ left result ids.now self.old.live }
        ensures tip { tip_of self.new ≡ tip_of self.old }
        ensures start { self.new.start ≡ self.old.start }
        ensures room { self.old.room ≤ self.new.room }
    {
        if let Some(id) = self.first_unknown(ids) {
            return Removing::Unknown(id);
        }
        if self.names_tip(ids) {
            return Removing::Tip;
        }
        self.live.retain(|live| !ids.contains(&live.id));
        Removing::Removed
    }
}
