//! A document under calls, with what each comes to. Versions and executions are told by their
//! numbers.
use crate::asking::{Asked, named};
use crate::desk::{Desk, Left, Updated};
use crate::plain::{Checked, check};
use crate::telling::{
    Shown, how_shown, put_cancel, put_claim, put_left, put_remove, put_results, put_settled,
    put_update,
};
use pide_base::{ExecId, VersionId};
use prover_core::{NodeResults, Settled};
use script_lines::{Fault, number, once};
use sqlite_items::Items;
use std::alloc::{AllocError, Global};

/// A version with its nodes as they are checked from nothing.
#[derive(Drop)]
struct Plain {
    version: VersionId,
    nodes: Vec<Checked>,
}

/// A document, and each of its versions as it is checked from nothing.
#[derive(Drop)]
pub(crate) struct Run {
    desk: Desk,
    plain: Vec<Plain>,
}

/// The version that a word tells.
fn version_of(word: &str) -> Result<VersionId, Fault> {
    VersionId::new(number(word)?).ok_or(Fault::Line)
}

/// The execution that a word tells.
fn exec_of(word: &str) -> Result<ExecId, Fault> {
    ExecId::new(number(word)?).ok_or(Fault::Line)
}

/// The worker that a word tells.
fn worker_of(word: &str) -> Result<u32, Fault> {
    match word.parse::<u32>() {
        Ok(worker) => Ok(worker),
        Err(_) => Err(Fault::Line),
    }
}

fn add_versions(ids: &mut Items<VersionId>, words: &[&str]) -> Result<(), Fault> {
    for word in words {
        ids.push(version_of(*word)?)?;
    }
    Ok(())
}

fn versions_of(alloc: Global, words: &[&str]) -> Result<Items<VersionId>, Fault> {
    let mut ids = Items::new(alloc);
    add_versions(&mut ids, words)?;
    Ok(ids)
}

/// The node of this name among those that were checked.
fn found<'a>(nodes: &'a [Checked], node: &str) -> Option<&'a Checked> {
    for checked in nodes {
        if checked.name.as_str() == node {
            return Some(checked);
        }
    }
    None
}

impl Run {
    pub(crate) fn new(alloc: Global) -> Result<Run, AllocError> {
        Ok(Run {
            desk: Desk::new(alloc)?,
            plain: Vec::new(alloc),
        })
    }

    /// What an update comes to that makes the version of a word.
    pub(crate) fn update(
        &mut self,
        alloc: Global,
        words: &[&str],
        asked: &Asked,
        out: &mut String,
    ) -> Result<(), Fault> {
        let [word] = words else {
            return Err(Fault::Line);
        };
        let updated = self.make(alloc, version_of(*word)?, asked)?;
        let put = put_update(out, &updated);
        drop(updated);
        Ok(put?)
    }

    /// A version is made, and kept as it is checked from nothing.
    pub(crate) fn make(
        &mut self,
        alloc: Global,
        version: VersionId,
        asked: &Asked,
    ) -> Result<Updated, Fault> {
        let updated = self
            .desk
            .update(alloc, version, &asked.items, &asked.blobs)?;
        let kept = if matches!(updated, Updated::Told(_)) {
            self.keep(alloc, version)
        } else {
            Ok(())
        };
        once(kept, updated)
    }

    /// The newest version goes in as it is checked from nothing.
    fn keep(&mut self, alloc: Global, version: VersionId) -> Result<(), Fault> {
        let buffer = self.desk.buffer();
        let nodes = check(alloc, buffer.nodes(), buffer.blobs())?;
        Ok(self.plain.push(Plain { version, nodes })?)
    }

    /// The node in the version, checked from nothing.
    fn checked(&self, version: VersionId, node: &str) -> Option<&Checked> {
        for plain in &self.plain {
            if plain.version == version {
                return found(&plain.nodes, node);
            }
        }
        None
    }

    /// Whether the worker takes a part.
    pub(crate) fn claims(&mut self, alloc: Global, who: u32) -> Result<bool, Fault> {
        Ok(self.desk.claim(alloc, who)?.is_some())
    }

    /// Whether the worker held a part, on which it has worked to the end.
    pub(crate) fn finishes(&mut self, alloc: Global, who: u32) -> Result<bool, Fault> {
        Ok(!matches!(self.desk.finish(alloc, who)?, Left::Nothing))
    }

    /// An execution is cancelled.
    pub(crate) fn cancels(&mut self, exec: ExecId) {
        self.desk.cancel(exec);
    }

    /// The stuck executions of a version that is settled.
    pub(crate) fn stuck(&self, version: VersionId) -> Result<Option<Vec<ExecId>>, Fault> {
        match self.desk.core().settled(version)? {
            Settled::Settled(stuck) => Ok(Some(stuck)),
            _ => Ok(None),
        }
    }

    /// How what is shown of the node in the version stands to what is reported of it from nothing.
    /// The executions that are pending go in behind the others.
    pub(crate) fn look(
        &self,
        alloc: Global,
        version: VersionId,
        node: &str,
        pending: &mut Vec<ExecId>,
    ) -> Result<Shown, Fault> {
        let all = self.checked(version, node).ok_or(Fault::Line)?;
        let Some(results) = self.results(alloc, version, node)? else {
            return Err(Fault::Line);
        };
        let put = pending.extend_from_slice(&results.pending);
        let shown = how_shown(&results.parts, all);
        drop(results);
        put?;
        Ok(shown)
    }

    /// What the core has of a node in a version, where it has both.
    fn results(
        &self,
        alloc: Global,
        version: VersionId,
        node: &str,
    ) -> Result<Option<NodeResults<'_>>, Fault> {
        let name = named(alloc, node)?;
        let results = self.desk.core().results(version, &name);
        drop(name);
        Ok(results?)
    }

    fn shown(
        &self,
        alloc: Global,
        version: VersionId,
        node: &str,
        out: &mut String,
    ) -> Result<(), Fault> {
        match self.results(alloc, version, node)? {
            None => Ok(out.push_str("unknown")?),
            Some(results) => {
                let put = self.put_shown(version, node, &results, out);
                drop(results);
                put
            }
        }
    }

    fn put_shown(
        &self,
        version: VersionId,
        node: &str,
        results: &NodeResults<'_>,
        out: &mut String,
    ) -> Result<(), Fault> {
        let all = self.checked(version, node).ok_or(Fault::Line)?;
        Ok(put_results(out, results, all)?)
    }

    /// Worker 0 takes parts and finishes them until none is ready, at most a hundred: the numbers
    /// of their executions.
    fn work(&mut self, alloc: Global, out: &mut String) -> Result<(), Fault> {
        out.push_str("worked")?;
        for _ in 0..100 {
            let Some(part) = self.desk.claim(alloc, 0)? else {
                return Ok(());
            };
            write!(out, " {}", part.exec.number())?;
            self.desk.finish(alloc, 0)?;
        }
        Ok(())
    }

    fn end(&mut self, out: &mut String) -> Result<(), Fault> {
        self.desk.end();
        self.put_ended(out)
    }

    fn put_ended(&self, out: &mut String) -> Result<(), Fault> {
        let ended = self.desk.core().ended();
        Ok(out.push_str(if ended { "ended" } else { "goes on" })?)
    }

    fn claim(&mut self, alloc: Global, who: u32, out: &mut String) -> Result<(), Fault> {
        let claimed = self.desk.claim(alloc, who)?;
        Ok(put_claim(out, &claimed)?)
    }

    fn finish(&mut self, alloc: Global, who: u32, out: &mut String) -> Result<(), Fault> {
        let left = self.desk.finish(alloc, who)?;
        Ok(put_left(out, &left)?)
    }

    fn give_up(&mut self, who: u32, out: &mut String) -> Result<(), Fault> {
        let left = self.desk.give_up(who)?;
        Ok(put_left(out, &left)?)
    }

    fn remove(&mut self, alloc: Global, words: &[&str], out: &mut String) -> Result<(), Fault> {
        let removed = self.desk.remove(versions_of(alloc, words)?)?;
        Ok(put_remove(out, &removed)?)
    }

    fn settled(&self, version: VersionId, out: &mut String) -> Result<(), Fault> {
        let settled = self.desk.core().settled(version)?;
        Ok(put_settled(out, &settled)?)
    }

    fn cancel(&mut self, exec: ExecId, out: &mut String) -> Result<(), Fault> {
        let cancelled = self.desk.cancel(exec);
        Ok(put_cancel(out, &cancelled)?)
    }

    fn show(&self, alloc: Global, words: &[&str], out: &mut String) -> Result<(), Fault> {
        let [version, node] = words else {
            return Err(Fault::Line);
        };
        self.shown(alloc, version_of(*version)?, *node, out)
    }

    /// What a call of a worker comes to.
    fn answer_worker(
        &mut self,
        alloc: Global,
        verb: &str,
        who: u32,
        out: &mut String,
    ) -> Result<(), Fault> {
        match verb {
            "claim" => self.claim(alloc, who, out),
            "finish" => self.finish(alloc, who, out),
            _ => self.give_up(who, out),
        }
    }

    /// What a call comes to that is told a number.
    fn answer_number(
        &mut self,
        alloc: Global,
        verb: &str,
        word: &str,
        out: &mut String,
    ) -> Result<(), Fault> {
        match verb {
            "claim" | "finish" | "give-up" => {
                self.answer_worker(alloc, verb, worker_of(word)?, out)
            }
            "cancel" => self.cancel(exec_of(word)?, out),
            "settled" => self.settled(version_of(word)?, out),
            _ => Err(Fault::Line),
        }
    }

    /// What a call comes to.
    pub(crate) fn answer(
        &mut self,
        alloc: Global,
        verb: &str,
        words: &[&str],
        out: &mut String,
    ) -> Result<(), Fault> {
        match verb {
            "remove" => self.remove(alloc, words, out),
            "shown" => self.show(alloc, words, out),
            "work" => self.work(alloc, out),
            "end" => self.end(out),
            "ended" => self.put_ended(out),
            _ => match words {
                [word] => self.answer_number(alloc, verb, *word, out),
                _ => Err(Fault::Line),
            },
        }
    }
}
