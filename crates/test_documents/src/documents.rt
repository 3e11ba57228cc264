//! All that the calls of a script are about.
use crate::blobs::Naming;
use crate::executions::Executions;
use crate::maps::Maps;
use crate::nodes::Drawn;
use crate::queued::Queue;
use crate::reports::Reporting;
use crate::text_calls::Texts;
use crate::trees::Tree;
use crate::versions::Live;
use crate::{graphs, limits, pasts, symbol_numbers};
use joined_results::both;
use script_lines::{Fault, Script};
use std::alloc::{AllocError, Global};
use std::mem;

/// What the calls of a script work on, by subject.
#[derive(Drop)]
pub(crate) struct Documents {
    queue: Queue,
    executions: Executions,
    maps: Maps,
    live: Live,
    reporting: Reporting,
    tree: Tree,
    drawn: Drawn,
    naming: Naming,
    texts: Texts,
}

impl Documents {
    pub(crate) fn new(alloc: Global) -> Result<Documents, AllocError> {
        let (live, texts) = both(Live::new(alloc), Texts::new(alloc))?;
        Ok(Documents {
            queue: Queue::new(alloc),
            executions: Executions::new(alloc),
            maps: Maps::new(),
            live,
            reporting: Reporting::new(alloc),
            tree: Tree::new(),
            drawn: Drawn::new(),
            naming: Naming::new(),
            texts,
        })
    }

    /// The answer to a call of what stands in it alone, or of texts and formats.
    fn answer_more(
        &mut self,
        alloc: Global,
        subject: &str,
        words: &[&str],
        out: &mut String,
    ) -> Result<(), Fault> {
        match subject {
            "rounds" => graphs::answer(alloc, words, out),
            "marks" => graphs::answer_marks(alloc, out),
            "past" => pasts::answer(alloc, words, out),
            "limit" => limits::answer(words, out),
            "symbol-numbers" => symbol_numbers::answer(alloc, words, out),
            _ => self.texts.answer(alloc, subject, words, out),
        }
    }
}

impl Script for Documents {
    fn begin(&mut self, alloc: Global) -> Result<(), Fault> {
        let new = Documents::new(alloc)?;
        drop(mem::replace(self, new));
        Ok(())
    }

    fn answer(&mut self, alloc: Global, words: &[&str], out: &mut String) -> Result<(), Fault> {
        let [subject, words @ ..] = words else {
            return Err(Fault::Line);
        };
        match *subject {
            "queue" => self.queue.answer(alloc, words, out),
            "exec" => self.executions.answer(words, out),
            "map" => self.maps.answer(alloc, words, out),
            "version" => self.live.answer(alloc, words, out),
            "report" => self.reporting.answer(alloc, words, out),
            "tree" => self.tree.answer(alloc, words, out),
            "node" => self.drawn.answer(alloc, words, out),
            "blob" => self.naming.answer(alloc, words, out),
            subject => self.answer_more(alloc, subject, words, out),
        }
    }
}
