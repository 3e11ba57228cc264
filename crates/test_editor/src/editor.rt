//! What the calls of a script on documents are about.
use crate::asking::Asked;
use crate::buffers::Edited;
use crate::orders::{Between, Orders, put_orders};
use crate::running::Run;
use crate::{jobs, laws, lengths, long_texts, open_nodes, walk};
use pide_base::ExecId;
use script_lines::{Answer, Call, Fault, number};
use std::alloc::{AllocError, Global};
use std::mem;

/// What these calls work on: the next update, the update by which documents open whose
/// orders are counted, a buffer, and a document.
#[derive(Drop)]
pub(crate) struct Editor {
    asked: Asked,
    opening: Asked,
    edited: Edited,
    run: Run,
}

/// What the words tell to come between the steps of workers.
fn between_of(words: &[&str]) -> Result<Between, Fault> {
    match words {
        [] => Ok(Between::Nothing),
        [word] if *word == "update" => Ok(Between::Update),
        [word, exec] if *word == "cancel" => {
            Ok(Between::Cancel(ExecId::new(number(*exec)?).ok_or(Fault::Line)?))
        }
        _ => Err(Fault::Line),
    }
}

impl Editor {
    pub(crate) fn new(alloc: Global) -> Result<Editor, AllocError> {
        let run = Run::new(alloc)?;
        Ok(Editor {
            asked: Asked::new(alloc),
            opening: Asked::new(alloc),
            edited: Edited::new(),
            run,
        })
    }

    /// The next update, in whose place a new one begins.
    fn taken(&mut self, alloc: Global) -> Asked {
        mem::replace(&mut self.asked, Asked::new(alloc))
    }

    /// What the next update makes of the buffer, where so many versions are live.
    fn edit(&mut self, alloc: Global, live: &[&str], out: &mut String) -> Result<(), Fault> {
        let asked = self.taken(alloc);
        self.edited.update(alloc, live, &asked, out)
    }

    /// What the next update makes of the document.
    fn update(&mut self, alloc: Global, words: &[&str], out: &mut String) -> Result<(), Fault> {
        let asked = self.taken(alloc);
        self.run.update(alloc, words, &asked, out)
    }

    fn open(&mut self, alloc: Global) -> Result<(), Fault> {
        let asked = self.taken(alloc);
        drop(mem::replace(&mut self.opening, asked));
        Ok(())
    }

    /// How many orders there are of what the words tell to come in between.
    fn count(&mut self, alloc: Global, words: &[&str], out: &mut String) -> Result<(), Fault> {
        let between = between_of(words)?;
        let second = self.taken(alloc);
        let orders = Orders {
            opening: &self.opening,
            between,
            second: &second,
        };
        put_orders(alloc, &orders, out)
    }

    /// What a call comes to.
    pub(crate) fn answer(&mut self, alloc: Global, call: &Call<'_>, out: &mut String) -> Answer {
        let words = call.words;
        match call.verb {
            "edit" => self.asked.edit(alloc, words),
            "close" => self.asked.close(alloc, words),
            "blob" => self.asked.blob(alloc, words),
            "buffer" => self.edit(alloc, words, out),
            "update" => self.update(alloc, words, out),
            "opening" => self.open(alloc),
            "orders" => self.count(alloc, words, out),
            "walk" => walk::answer(alloc, words, out),
            "long" => long_texts::answer(alloc, words, out),
            "open" => open_nodes::answer(alloc, words, out),
            "job" => jobs::answer(alloc, words, out),
            "left" => lengths::answer(alloc, words, out),
            "laws" => laws::answer(out),
            _ => self.run.answer(alloc, call.verb, words, out),
        }
    }
}
