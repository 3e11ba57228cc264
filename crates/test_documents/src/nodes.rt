//! Nodes under calls.
use crate::assigned::{Two, put_outcome, put_rows, put_told};
use crate::drawn::{name_of, node_of};
use crate::orders::{put_aliases, put_first_copied, put_first_target, put_order, put_wanted};
use doc_nodes::Nodes;
use script_lines::{Fault, number};
use shared_map::SharedMap;
use std::alloc::Global;
use std::mem;

/// The nodes that are drawn, and those that were drawn before.
#[derive(Drop)]
pub(crate) struct Drawn {
    nodes: Nodes,
    before: Nodes,
}

impl Drawn {
    pub(crate) fn new() -> Drawn {
        Drawn {
            nodes: SharedMap::new(),
            before: SharedMap::new(),
        }
    }

    pub(crate) fn answer(
        &mut self,
        alloc: Global,
        words: &[&str],
        out: &mut String,
    ) -> Result<(), Fault> {
        match words {
            [verb, name, rest @ ..] if *verb == "put" => self.put(alloc, *name, rest),
            [verb] if *verb == "before" => self.set_before(),
            [verb] => self.answer_all(alloc, *verb, out),
            [verb, name] if *verb == "target" => put_first_target(alloc, &self.nodes, *name, out),
            [verb, number_word] => self.answer_update(alloc, *verb, number(*number_word)?, out),
            _ => Err(Fault::Line),
        }
    }

    fn put(&mut self, alloc: Global, name: &str, words: &[&str]) -> Result<(), Fault> {
        let node = node_of(alloc, words)?;
        Ok(self.nodes.set(alloc, name_of(alloc, name)?, node)?)
    }

    /// What is drawn from now on comes after what was drawn so far.
    fn set_before(&mut self) -> Result<(), Fault> {
        let drawn = mem::replace(&mut self.nodes, SharedMap::new());
        drop(mem::replace(&mut self.before, drawn));
        Ok(())
    }

    fn answer_all(&self, alloc: Global, verb: &str, out: &mut String) -> Result<(), Fault> {
        match verb {
            "order" => Ok(put_order(alloc, &self.nodes, out)?),
            "aliases" => Ok(put_aliases(alloc, &self.nodes, out)?),
            "wanted" => Ok(put_wanted(alloc, &self.nodes, out)?),
            "copy" => put_first_copied(&self.nodes, out),
            _ => Err(Fault::Line),
        }
    }

    /// An update to the nodes before, and one from there to these nodes; the execution of the
    /// number is cancelled in between.
    fn answer_update(
        &self,
        alloc: Global,
        verb: &str,
        number: u64,
        out: &mut String,
    ) -> Result<(), Fault> {
        let two = Two {
            before: &self.before,
            cancelled: number,
            after: &self.nodes,
        };
        match verb {
            "rows" => put_rows(alloc, &two, out),
            "told" => put_told(alloc, &two, out),
            "outcome" => put_outcome(alloc, &self.nodes, number, out),
            _ => Err(Fault::Line),
        }
    }
}
