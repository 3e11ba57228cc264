//! The live versions (`core_tables`). Here version n holds ten times n, and the start nothing.
use crate::listed::put_some;
use core_tables::{Removing, Version, Versions};
use pide_base::VersionId;
use script_lines::{Fault, number};
use std::alloc::{AllocError, Global};
use std::mem;

/// Live versions under calls, and one that is shared.
#[derive(Drop)]
pub(crate) struct Live {
    versions: Versions<u64>,
    shared: Option<Version<u64>>,
}

fn version(alloc: Global, content: u64) -> Result<Version<u64>, AllocError> {
    match Version::new(alloc, content) {
        Ok(version) => Ok(version),
        Err(_) => Err(AllocError),
    }
}

fn id(word: &str) -> Result<VersionId, Fault> {
    VersionId::new(number(word)?).ok_or(Fault::Line)
}

fn add_ids(ids: &mut Vec<VersionId>, words: &[&str]) -> Result<(), Fault> {
    for word in words {
        ids.push(id(*word)?)?;
    }
    Ok(())
}

fn number_of(id: Option<VersionId>) -> Option<u64> {
    match id {
        Some(id) => Some(id.number()),
        None => None,
    }
}

fn content(version: Option<&Version<u64>>) -> Option<u64> {
    match version {
        Some(version) => Some(*version.get()),
        None => None,
    }
}

impl Live {
    pub(crate) fn new(alloc: Global) -> Result<Live, AllocError> {
        Ok(Live {
            versions: Versions::new(alloc, version(alloc, 0)?),
            shared: None,
        })
    }

    pub(crate) fn answer(
        &mut self,
        alloc: Global,
        words: &[&str],
        out: &mut String,
    ) -> Result<(), Fault> {
        match words {
            [verb] => self.answer_all(*verb, out),
            [verb, rest @ ..] if *verb == "remove" => self.remove(alloc, rest, out),
            [verb, word] => self.answer_one(alloc, *verb, id(*word)?, out),
            _ => Err(Fault::Line),
        }
    }

    fn answer_all(&self, verb: &str, out: &mut String) -> Result<(), Fault> {
        match verb {
            "count" => Ok(write!(out, "{}", self.versions.len())?),
            "tip" => Ok(write!(out, "{}", *self.versions.tip().get())?),
            "tip-id" => Ok(put_some(out, number_of(self.versions.tip_id()))?),
            "shared" => Ok(put_some(out, content(self.shared.as_ref()))?),
            _ => Err(Fault::Line),
        }
    }

    fn answer_one(
        &mut self,
        alloc: Global,
        verb: &str,
        id: VersionId,
        out: &mut String,
    ) -> Result<(), Fault> {
        match verb {
            "push" => self.push(alloc, id, out),
            "get" => Ok(put_some(out, content(self.versions.get(id)))?),
            "share" => self.share(id),
            _ => Err(Fault::Line),
        }
    }

    /// The newest version is told then.
    fn push(&mut self, alloc: Global, id: VersionId, out: &mut String) -> Result<(), Fault> {
        if self.versions.get(id).is_some() {
            return Ok(out.push_str("known")?);
        }
        let version = version(alloc, id.number().saturating_mul(10))?;
        self.versions.reserve(1)?;
        self.versions.push(id, version);
        Ok(put_some(out, number_of(self.versions.tip_id()))?)
    }

    fn share(&mut self, id: VersionId) -> Result<(), Fault> {
        let Some(version) = self.versions.get(id) else {
            return Err(Fault::Line);
        };
        let shared = Some(version.share()?);
        drop(mem::replace(&mut self.shared, shared));
        Ok(())
    }

    fn remove(&mut self, alloc: Global, words: &[&str], out: &mut String) -> Result<(), Fault> {
        let mut ids = Vec::new(alloc);
        add_ids(&mut ids, words)?;
        match self.versions.remove(&ids) {
            Removing::Removed => Ok(out.push_str("removed")?),
            Removing::Tip => Ok(out.push_str("tip")?),
            Removing::Unknown(id) => Ok(write!(out, "unknown {}", id.number())?),
        }
    }
}
