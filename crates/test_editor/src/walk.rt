//! A walk of random updates, beside a buffer that reads everything again.
use crate::asking::Asked;
use crate::buffers::Edited;
use crate::plain_buffer::Plain;
use message_values::Perspective;
use pide_base::Range;
use script_lines::{Fault, below, joined, next_of, number, once};
use sqlite_items::Items;
use std::alloc::Global;
use text_edits::{Edit, Text};

/// Pieces that texts are made of.
const PIECES: [&str; 12] = [
    " ",
    "(*",
    "*)",
    "\"",
    "axiom a: \"P\"",
    "axiom b: \"P --> Q\"",
    "lemma l: \"P\"",
    "by a",
    "theory A begin ",
    "end",
    "x",
    "load \"x\"",
];

/// Inserts a piece or removes some scalars, by the seed.
fn some_edit(alloc: Global, text: &[char], seed: u64) -> Result<Edit, Fault> {
    let len = text.len();
    let start = below(next_of(seed), len.saturating_add(1)).min(len);
    if seed >> 40 & 1 == 0 && len < 120 {
        let piece = PIECES[below(next_of(next_of(seed)), 12).min(11)];
        return Ok(Edit::Insert {
            start,
            text: Text::from_str(alloc, piece)?,
        });
    }
    let count = below(next_of(next_of(seed)), 9).min(len - start);
    Ok(Edit::Remove {
        start,
        text: Text::from_slice(alloc, &text[start..start + count])?,
    })
}

/// Now and then a perspective of two ranges of a text of this length.
fn some_perspective(alloc: Global, len: usize, seed: u64) -> Result<Option<Perspective>, Fault> {
    if seed >> 45 & 3 != 0 {
        return Ok(None);
    }
    let one = below(next_of(seed), len.saturating_add(1)).min(len);
    let other = below(next_of(next_of(seed)), len.saturating_add(1)).min(len);
    let mut ranges = Items::new(alloc);
    ranges.push(Range {
        start: one.min(other),
        stop: one.max(other),
    })?;
    ranges.push(Range {
        start: one,
        stop: one.saturating_add(1).min(len),
    })?;
    Ok(Some(Perspective {
        required: false,
        ranges,
    }))
}

/// A node A, and the same node read again at each update.
#[derive(Drop)]
struct Walk {
    edited: Edited,
    plain: Plain,
    seed: u64,
}

impl Walk {
    fn new(alloc: Global, seed: u64) -> Walk {
        Walk {
            edited: Edited::new(),
            plain: Plain::new(alloc),
            seed,
        }
    }

    /// One edit more of the plain buffer.
    fn edit(&mut self, alloc: Global) -> Result<Edit, Fault> {
        self.seed = next_of(self.seed);
        let edit = some_edit(alloc, &self.plain.text, self.seed)?;
        let edited = self.plain.edit(alloc, &edit);
        once(edited, edit)
    }

    fn two_edits(&mut self, alloc: Global) -> Result<Items<Edit>, Fault> {
        let mut edits = Items::new(alloc);
        let put = self.put_edit(alloc, &mut edits);
        let put = put.and(self.put_edit(alloc, &mut edits));
        once(put, edits)
    }

    fn put_edit(&mut self, alloc: Global, edits: &mut Items<Edit>) -> Result<(), Fault> {
        let edit = self.edit(alloc)?;
        Ok(edits.push(edit)?)
    }

    /// Perhaps a perspective, under which the plain buffer is then read.
    fn perspective(&mut self, alloc: Global) -> Result<Option<Perspective>, Fault> {
        let perspective = some_perspective(alloc, self.plain.text.len(), self.seed)?;
        let shown = self.plain.show(alloc, &perspective);
        let shown = shown.and(self.plain.number(alloc));
        once(shown, perspective)
    }

    /// Two edits, and perhaps a perspective.
    fn ask(&mut self, alloc: Global, asked: &mut Asked) -> Result<(), Fault> {
        let edits = self.two_edits(alloc);
        let (edits, perspective) = joined(edits, self.perspective(alloc))?;
        asked.add_edits(alloc, "A", edits, perspective)
    }

    /// Whether an update more comes to the same in both.
    fn agrees(&mut self, alloc: Global) -> Result<bool, Fault> {
        let mut asked = Asked::new(alloc);
        let agrees = self.agrees_at(alloc, &mut asked);
        drop(asked);
        agrees
    }

    /// The same, where nothing is asked for yet.
    fn agrees_at(&mut self, alloc: Global, asked: &mut Asked) -> Result<bool, Fault> {
        self.ask(alloc, asked)?;
        let mut told = String::new(alloc);
        self.edited.outcome(alloc, 0, asked, &mut told)?;
        let mut plain = String::new(alloc);
        self.plain.put(&mut plain, alloc)?;
        Ok(told.as_str() == plain.as_str())
    }
}

/// So many updates from this number on: the first one that comes to something else, or `equal`.
pub(crate) fn answer(alloc: Global, words: &[&str], out: &mut String) -> Result<(), Fault> {
    let [seed, steps] = words else {
        return Err(Fault::Line);
    };
    let steps = number(*steps)?;
    let mut walk = Walk::new(alloc, number(*seed)?);
    let put = put_walked(alloc, &mut walk, steps, out);
    drop(walk);
    put
}

fn put_walked(alloc: Global, walk: &mut Walk, steps: u64, out: &mut String) -> Result<(), Fault> {
    for step in 0..steps {
        if !walk.agrees(alloc)? {
            return Ok(write!(out, "{step}")?);
        }
    }
    Ok(out.push_str("equal")?)
}
