//! Nodes as scripts draw them: a name, and words as `imports=B,C`, `keywords=claim:lemma`,
//! `commands=1,2*,3` (a star behind what is visible) and `required`.
use crate::shared::items_of;
use doc_nodes::{Entry, Node, Shared};
use joined_results::both;
use outer_syntax::KeywordPair;
use pide_base::{CommandId, NodeName, Range};
use script_lines::{Fault, number};
use sqlite_items::Items;
use std::alloc::{AllocError, Global};
use std::mem;
use text_edits::Text;

/// A node that is drawn word by word.
#[derive(Drop)]
struct Drawing {
    imports: Items<Items<char>>,
    keywords: Items<KeywordPair>,
    entries: Items<Entry>,
    required: bool,
}

/// A value that is shared.
fn shared<T: Drop>(alloc: Global, value: T) -> Result<Shared<T>, AllocError> {
    match Shared::new(alloc, value) {
        Ok(shared) => Ok(shared),
        Err(_) => Err(AllocError),
    }
}

/// The name of a node.
pub(crate) fn name_of(alloc: Global, name: &str) -> Result<NodeName, Fault> {
    match NodeName::new(String::from_str(alloc, name)?) {
        Ok(name) => Ok(name),
        Err(_) => Err(Fault::Line),
    }
}

fn add_imports(
    alloc: Global,
    imports: &mut Items<Items<char>>,
    names: &str,
) -> Result<(), AllocError> {
    for name in names.split(',') {
        imports.push(items_of(alloc, name)?)?;
    }
    Ok(())
}

fn pair(alloc: Global, name: &str, target: &str) -> Result<KeywordPair, AllocError> {
    let (name, target) = both(items_of(alloc, name), items_of(alloc, target))?;
    Ok(KeywordPair { name, target })
}

fn add_keywords(
    alloc: Global,
    keywords: &mut Items<KeywordPair>,
    pairs: &str,
) -> Result<(), Fault> {
    for one in pairs.split(',') {
        let Some((name, target)) = one.split_once(':') else {
            return Err(Fault::Line);
        };
        keywords.push(pair(alloc, name, target)?)?;
    }
    Ok(())
}

/// The command that a word tells, at a place.
fn entry(word: &str, at: usize) -> Result<Entry, Fault> {
    let (digits, visible) = match word.strip_suffix('*') {
        Some(digits) => (digits, true),
        None => (word, false),
    };
    let Some(command) = CommandId::new(number(digits)?) else {
        return Err(Fault::Line);
    };
    Ok(Entry {
        command,
        range: Range {
            start: at,
            stop: at,
        },
        visible,
        needs: None,
    })
}

fn add_entries(entries: &mut Items<Entry>, commands: &str) -> Result<(), Fault> {
    for (at, word) in commands.split(',').enumerate() {
        entries.push(entry(word, at)?)?;
    }
    Ok(())
}

fn add_word(alloc: Global, drawing: &mut Drawing, word: &str) -> Result<(), Fault> {
    let (key, value) = word.split_once('=').unwrap_or((word, ""));
    match key {
        "imports" => Ok(add_imports(alloc, &mut drawing.imports, value)?),
        "keywords" => add_keywords(alloc, &mut drawing.keywords, value),
        "commands" => add_entries(&mut drawing.entries, value),
        "required" => {
            drawing.required = true;
            Ok(())
        }
        _ => Err(Fault::Line),
    }
}

fn add_words(alloc: Global, drawing: &mut Drawing, words: &[&str]) -> Result<(), Fault> {
    for word in words {
        add_word(alloc, drawing, *word)?;
    }
    Ok(())
}

/// The node that was drawn, which is left bare.
fn drawn(alloc: Global, drawing: &mut Drawing) -> Result<Node, AllocError> {
    let imports = mem::replace(&mut drawing.imports, Items::new(alloc));
    let keywords = mem::replace(&mut drawing.keywords, Items::new(alloc));
    let entries = mem::replace(&mut drawing.entries, Items::new(alloc));
    node(alloc, imports, keywords, entries, drawing.required)
}

/// A node of no text.
pub(crate) fn node(
    alloc: Global,
    imports: Items<Items<char>>,
    keywords: Items<KeywordPair>,
    entries: Items<Entry>,
    required: bool,
) -> Result<Node, AllocError> {
    let body = both(shared(alloc, Text::new(alloc)), shared(alloc, entries));
    let header = both(shared(alloc, imports), shared(alloc, keywords));
    let ((text, entries), (imports, keywords)) = both(body, header)?;
    Ok(Node {
        text,
        entries,
        required,
        imports,
        keywords,
    })
}

/// The node that words draw.
pub(crate) fn node_of(alloc: Global, words: &[&str]) -> Result<Node, Fault> {
    let mut drawing = Drawing {
        imports: Items::new(alloc),
        keywords: Items::new(alloc),
        entries: Items::new(alloc),
        required: false,
    };
    add_words(alloc, &mut drawing, words)?;
    Ok(drawn(alloc, &mut drawing)?)
}
