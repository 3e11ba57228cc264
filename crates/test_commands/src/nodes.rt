//! How a node begins.
use crate::command::{scalars, shared};
use doc_nodes::{Aliases, NodeAliases, Shared};
use joined_results::each_of_three;
use language::{Imports, Language};
use pide_base::NodeName;
use sqlite_items::Items;
use std::alloc::{AllocError, Global};

/// What stands behind a word of the line, up to a space.
fn word_behind<'a>(line: &'a str, word: &str) -> Option<&'a str> {
    let (_, rest) = line.split_once(word)?;
    match rest.split_once(' ') {
        Some((name, _)) => Some(name),
        None => Some(rest),
    }
}

/// The imports of the node: none, or a bad one.
fn imports_of<S: Drop>(alloc: Global, bad: Option<&str>) -> Result<Imports<S>, AllocError> {
    match bad {
        Some(name) => Ok(Imports::Bad(Items::from_vec(scalars(alloc, name)?))),
        None => Ok(Imports::Ordered(Items::new(alloc))),
    }
}

/// The aliases of the node: none, or a bad one.
fn aliases_of(alloc: Global, bad: Option<&str>) -> Result<NodeAliases, AllocError> {
    let bad = match bad {
        Some(name) => Some(Items::from_vec(scalars(alloc, name)?)),
        None => None,
    };
    match Shared::new(alloc, Aliases::new(alloc)) {
        Ok(pairs) => Ok(NodeAliases { pairs, bad }),
        Err(_) => Err(AllocError),
    }
}

fn name_of(alloc: Global) -> Result<NodeName, AllocError> {
    match NodeName::new(String::from_str(alloc, "A")?) {
        Ok(name) => Ok(name),
        Err(_) => Err(AllocError),
    }
}

/// The beginning of the node `A`, whose line tells which import and which keyword is bad.
pub(crate) fn begun<L: Language>(
    alloc: Global,
    lang: &L,
    line: &str,
) -> Result<Shared<L::State>, AllocError> {
    let (name, imports, aliases) = each_of_three(
        name_of(alloc),
        imports_of(alloc, word_behind(line, "import ")),
        aliases_of(alloc, word_behind(line, "keyword ")),
    )?;
    let state = lang.start(alloc, &name, &imports, &aliases);
    drop(name);
    drop(imports);
    drop(aliases);
    shared(alloc, state?)
}
