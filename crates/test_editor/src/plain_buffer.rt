//! A plain buffer of one node, which reads everything again.
use command_spans::{SpanKind, Spans};
use message_values::Perspective;
use outer_syntax::scalars;
use pide_base::Range;
use script_lines::Fault;
use std::alloc::Global;
use std::mem;
use text_edits::{Edit, Text};

/// The text after an edit that fits.
fn edited(alloc: Global, text: &[char], edit: &Edit) -> Result<Vec<char>, Fault> {
    let (start, gone, new): (usize, usize, &[char]) = match edit {
        Edit::Insert { start, text } => (*start, 0, text.as_slice()),
        Edit::Remove { start, text } => (*start, text.len(), &[]),
    };
    let mut after = Vec::new(alloc);
    for (place, scalar) in text.iter().enumerate() {
        if place == start {
            for more in new {
                after.push(*more)?;
            }
        }
        if place < start || start.saturating_add(gone) <= place {
            after.push(*scalar)?;
        }
    }
    if text.len() == start {
        for more in new {
            after.push(*more)?;
        }
    }
    Ok(after)
}

/// Where a place stands after an edit.
fn moved(edit: &Edit, place: usize) -> usize {
    match edit {
        Edit::Insert { start, text } if *start <= place => place.saturating_add(text.len()),
        Edit::Remove { start, text } if *start <= place => {
            place.saturating_sub(text.len()).max(*start)
        }
        _ => place,
    }
}

/// The ranges after an edit.
fn moved_all(alloc: Global, edit: &Edit, ranges: &[Range]) -> Result<Vec<Range>, Fault> {
    let mut all = Vec::new(alloc);
    for one in ranges {
        all.push(Range {
            start: moved(edit, one.start),
            stop: moved(edit, one.stop),
        })?;
    }
    Ok(all)
}

/// Where the commands of a text stand.
fn commands(alloc: Global, text: &[char]) -> Result<Vec<Range>, Fault> {
    let spans = Spans::of(alloc, text, &[])?;
    let mut all = Vec::new(alloc);
    for span in spans.spans() {
        if !matches!(span.kind, SpanKind::Ignored) {
            all.push(span.range)?;
        }
    }
    Ok(all)
}

/// The sources of these ranges.
fn sources(alloc: Global, text: &[char], ranges: &[Range]) -> Result<Vec<Text>, Fault> {
    let mut all = Vec::new(alloc);
    for one in ranges {
        all.push(Text::from_slice(alloc, scalars(text, *one))?)?;
    }
    Ok(all)
}

/// How many texts are equal at the front.
fn equal_front(before: &[Text], now: &[Text]) -> usize {
    let mut count: usize = 0;
    for (old, new) in before.iter().zip(now) {
        if old.as_slice() != new.as_slice() {
            return count;
        }
        count = count.saturating_add(1);
    }
    count
}

/// How many of the others are equal at the back.
fn equal_back(before: &[Text], now: &[Text], front: usize) -> usize {
    let olds = before.len().saturating_sub(front);
    let news = now.len().saturating_sub(front);
    for count in 0..olds.min(news) {
        let old = before.get(before.len().saturating_sub(count).saturating_sub(1));
        let new = now.get(now.len().saturating_sub(count).saturating_sub(1));
        match (old, new) {
            (Some(old), Some(new)) if old.as_slice() == new.as_slice() => {}
            _ => return count,
        }
    }
    olds.min(news)
}

/// A node that is read from nothing at each update.
#[derive(Drop)]
pub(crate) struct Plain {
    pub(crate) text: Vec<char>,
    ranges: Vec<Range>,
    ids: Vec<u64>,
    sources: Vec<Text>,
    next: u64,
}

impl Plain {
    pub(crate) fn new(alloc: Global) -> Plain {
        Plain {
            text: Vec::new(alloc),
            ranges: Vec::new(alloc),
            ids: Vec::new(alloc),
            sources: Vec::new(alloc),
            next: 1,
        }
    }

    pub(crate) fn edit(&mut self, alloc: Global, edit: &Edit) -> Result<(), Fault> {
        let ranges = moved_all(alloc, edit, &self.ranges)?;
        drop(mem::replace(&mut self.ranges, ranges));
        let text = edited(alloc, &self.text, edit)?;
        drop(mem::replace(&mut self.text, text));
        Ok(())
    }

    /// Under a perspective that is told; else ranges that are empty are dropped.
    pub(crate) fn show(&mut self, alloc: Global, told: &Option<Perspective>) -> Result<(), Fault> {
        let mut ranges = Vec::new(alloc);
        match told {
            Some(told) => {
                for one in told.ranges.as_slice() {
                    ranges.push(*one)?;
                }
            }
            None => {
                for one in &self.ranges {
                    if one.start != one.stop {
                        ranges.push(*one)?;
                    }
                }
            }
        }
        drop(mem::replace(&mut self.ranges, ranges));
        Ok(())
    }

    /// The id at a place of so many, where so many keep theirs at the front and at the back.
    fn id_at(&self, place: usize, count: usize, front: usize, back: usize) -> Option<u64> {
        if place < front {
            return self.ids.get(place).copied();
        }
        let behind = count.saturating_sub(place);
        if behind <= back {
            return self.ids.get(self.ids.len().saturating_sub(behind)).copied();
        }
        None
    }

    /// Reads the commands, and gives them their ids.
    pub(crate) fn number(&mut self, alloc: Global) -> Result<(), Fault> {
        let places = commands(alloc, &self.text)?;
        let now = sources(alloc, &self.text, &places)?;
        let numbered = self.number_all(alloc, &now);
        drop(mem::replace(&mut self.sources, now));
        numbered
    }

    /// Gives commands of these sources their ids.
    fn number_all(&mut self, alloc: Global, now: &[Text]) -> Result<(), Fault> {
        let front = equal_front(&self.sources, now);
        let back = equal_back(&self.sources, now, front);
        let mut ids = Vec::new(alloc);
        for place in 0..now.len() {
            let id = match self.id_at(place, now.len(), front, back) {
                Some(id) => id,
                None => self.new_id(),
            };
            ids.push(id)?;
        }
        drop(mem::replace(&mut self.ids, ids));
        Ok(())
    }

    fn new_id(&mut self) -> u64 {
        let id = self.next;
        self.next = id.saturating_add(1);
        id
    }

    fn sees(&self, place: &Range) -> bool {
        for one in &self.ranges {
            if one.start.max(place.start) < one.stop.min(place.stop) {
                return true;
            }
        }
        false
    }

    /// The node A with its ids, as scripts tell it.
    pub(crate) fn put(&self, told: &mut String, alloc: Global) -> Result<(), Fault> {
        told.push('A')?;
        for (id, place) in self.ids.iter().zip(&commands(alloc, &self.text)?) {
            let mark = if self.sees(place) { "*" } else { "" };
            write!(told, " {id}{mark}")?;
        }
        Ok(told.push_str("; ")?)
    }
}
