//! Updates that scripts ask for. An edited node is told by its name and words: `insert 3 'text'`,
//! `remove 3 'text'`, `required`, `sees`, and each range that is seen, as `3-7`.
use doc_nodes::BlobName;
use message_values::{BlobChange, Change, Item, Perspective};
use pide_base::{NodeName, Range};
use script_lines::{Fault, place, range};
use sqlite_items::Items;
use std::alloc::Global;
use text_edits::{Edit, Text};

/// What an update asks for.
#[derive(Drop)]
pub(crate) struct Asked {
    pub(crate) items: Vec<Item>,
    pub(crate) blobs: Vec<BlobChange>,
}

/// Which way a text goes.
#[derive(Clone, Copy)]
enum Way {
    In,
    Out,
}

/// What the next word tells.
#[derive(Clone, Copy)]
enum Awaited {
    Anything,
    Place(Way),
    Text(Way, usize),
}

/// What is asked of a node, word by word.
#[derive(Drop)]
struct Draft {
    edits: Items<Edit>,
    sees: bool,
    required: bool,
    ranges: Items<Range>,
}

/// The name of a node.
pub(crate) fn named(alloc: Global, text: &str) -> Result<NodeName, Fault> {
    match NodeName::new(String::from_str(alloc, text)?) {
        Ok(name) => Ok(name),
        Err(_) => Err(Fault::Line),
    }
}

fn add_edit(
    alloc: Global,
    edits: &mut Items<Edit>,
    way: Way,
    start: usize,
    text: &str,
) -> Result<(), Fault> {
    let text = Text::from_str(alloc, text)?;
    Ok(edits.push(match way {
        Way::In => Edit::Insert { start, text },
        Way::Out => Edit::Remove { start, text },
    })?)
}

fn add_range(ranges: &mut Items<Range>, word: &str) -> Result<(), Fault> {
    let (start, stop) = range(word)?;
    Ok(ranges.push(Range { start, stop })?)
}

/// Takes a word in; what the next one tells is answered.
fn take_in(
    alloc: Global,
    draft: &mut Draft,
    awaited: Awaited,
    word: &str,
) -> Result<Awaited, Fault> {
    match awaited {
        Awaited::Place(way) => return Ok(Awaited::Text(way, place(word)?)),
        Awaited::Text(way, start) => add_edit(alloc, &mut draft.edits, way, start, word)?,
        Awaited::Anything => match word {
            "insert" => return Ok(Awaited::Place(Way::In)),
            "remove" => return Ok(Awaited::Place(Way::Out)),
            "required" => draft.required = true,
            "sees" => draft.sees = true,
            range => add_range(&mut draft.ranges, range)?,
        },
    }
    Ok(Awaited::Anything)
}

fn take_all_in(alloc: Global, draft: &mut Draft, words: &[&str]) -> Result<(), Fault> {
    let mut awaited = Awaited::Anything;
    for word in words {
        awaited = take_in(alloc, draft, awaited, *word)?;
    }
    match awaited {
        Awaited::Anything => Ok(()),
        _ => Err(Fault::Line),
    }
}

/// The change that was drafted.
fn change_of(draft: Draft) -> Change {
    let Draft {
        edits,
        sees,
        required,
        ranges,
    } = draft;
    let perspective = if sees || required {
        Some(Perspective { required, ranges })
    } else {
        None
    };
    Change::Edit { edits, perspective }
}

fn change(alloc: Global, words: &[&str]) -> Result<Change, Fault> {
    let mut draft = Draft {
        edits: Items::new(alloc),
        sees: false,
        required: false,
        ranges: Items::new(alloc),
    };
    take_all_in(alloc, &mut draft, words)?;
    Ok(change_of(draft))
}

/// A change of a blob; it goes where no text is told.
fn blob_of(alloc: Global, name: &str, text: Option<Text>) -> Result<BlobChange, Fault> {
    match BlobName::new(String::from_str(alloc, name)?) {
        Ok(name) => Ok(BlobChange { name, text }),
        Err(_) => Err(Fault::Line),
    }
}

impl Asked {
    /// Nothing is asked for.
    pub(crate) fn new(alloc: Global) -> Asked {
        Asked {
            items: Vec::new(alloc),
            blobs: Vec::new(alloc),
        }
    }

    fn add(&mut self, alloc: Global, name: &str, change: Change) -> Result<(), Fault> {
        let node = named(alloc, name)?;
        Ok(self.items.push(Item { node, change })?)
    }

    /// A node is edited.
    pub(crate) fn edit(&mut self, alloc: Global, words: &[&str]) -> Result<(), Fault> {
        let [name, words @ ..] = words else {
            return Err(Fault::Line);
        };
        self.add(alloc, *name, change(alloc, words)?)
    }

    /// A node is closed.
    pub(crate) fn close(&mut self, alloc: Global, words: &[&str]) -> Result<(), Fault> {
        let [name] = words else {
            return Err(Fault::Line);
        };
        self.add(alloc, *name, Change::Close)
    }

    /// A node is edited, and perhaps seen otherwise.
    pub(crate) fn add_edits(
        &mut self,
        alloc: Global,
        name: &str,
        edits: Items<Edit>,
        perspective: Option<Perspective>,
    ) -> Result<(), Fault> {
        self.add(alloc, name, Change::Edit { edits, perspective })
    }

    /// A blob has a text from then on, or goes.
    pub(crate) fn add_blob(
        &mut self,
        alloc: Global,
        name: &str,
        text: Option<Text>,
    ) -> Result<(), Fault> {
        Ok(self.blobs.push(blob_of(alloc, name, text)?)?)
    }

    pub(crate) fn blob(&mut self, alloc: Global, words: &[&str]) -> Result<(), Fault> {
        match words {
            [name] => self.add_blob(alloc, *name, None),
            [name, text] => {
                let text = Text::from_str(alloc, *text)?;
                self.add_blob(alloc, *name, Some(text))
            }
            _ => Err(Fault::Line),
        }
    }
}
