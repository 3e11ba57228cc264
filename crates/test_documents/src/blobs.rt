//! The names of blobs, and the blob that a command asks for (`doc_nodes`).
use crate::drawn::{name_of, node};
use crate::shared::scalars_of;
use doc_nodes::{Aliases, BlobName, ImportGraph, Node, NodeAliases, aliases_of, needs};
use outer_syntax::{Header, header};
use script_lines::{Fault, joined};
use shared_map::SharedMap;
use sqlite_items::Items;
use std::alloc::{AllocError, Global};
use std::mem;

/// The aliases that are in force.
#[derive(Drop)]
pub(crate) struct Naming {
    aliases: Option<NodeAliases>,
}

/// The header of this text.
fn header_of(alloc: Global, text: &str) -> Result<Header, Fault> {
    let scalars = scalars_of(alloc, text)?;
    header(alloc, &scalars)?.ok_or(Fault::Line)
}

/// A node with the header of this text.
fn headed(alloc: Global, text: &str) -> Result<Node, Fault> {
    let Header {
        name,
        imports,
        keywords,
    } = header_of(alloc, text)?;
    drop(name);
    Ok(node(alloc, imports, keywords, Items::new(alloc), false)?)
}

/// The aliases that are in force in a node of this text.
fn aliases_in(alloc: Global, text: &str) -> Result<NodeAliases, Fault> {
    let mut nodes = SharedMap::new();
    let (name, node) = joined(name_of(alloc, "A"), headed(alloc, text))?;
    nodes.set(alloc, name, node)?;
    let graph = ImportGraph::of(alloc, &nodes)?;
    let mut all = aliases_of(alloc, &nodes, &graph)?;
    all.pop().ok_or(Fault::Line)
}

/// The blob's name, or `none`.
fn put_needs(
    alloc: Global,
    source: &str,
    aliases: &Aliases,
    out: &mut String,
) -> Result<(), Fault> {
    let scalars = scalars_of(alloc, source)?;
    match needs(alloc, &scalars, aliases)? {
        Some(name) => Ok(out.push_str(name.as_str())?),
        None => Ok(out.push_str("none")?),
    }
}

/// A copy of the name, and whether it is equal.
fn put_copied(name: &BlobName, out: &mut String) -> Result<(), AllocError> {
    let copy = name.clone()?;
    let same = if copy == *name { "equal" } else { "unequal" };
    write!(out, "{} {same}", copy.as_str())
}

/// The name, of which a copy is made that is equal.
fn put_name(alloc: Global, name: &str, out: &mut String) -> Result<(), Fault> {
    match BlobName::new(String::from_str(alloc, name)?) {
        Ok(name) => {
            let done = put_copied(&name, out);
            drop(name);
            Ok(done?)
        }
        Err(_) => Ok(out.push_str("no name")?),
    }
}

impl Naming {
    pub(crate) fn new() -> Naming {
        Naming { aliases: None }
    }

    pub(crate) fn answer(
        &mut self,
        alloc: Global,
        words: &[&str],
        out: &mut String,
    ) -> Result<(), Fault> {
        let [verb, text] = words else {
            return Err(Fault::Line);
        };
        match *verb {
            "under" => self.set_under(alloc, *text),
            "needs" => match &self.aliases {
                Some(aliases) => put_needs(alloc, *text, aliases.pairs.get(), out),
                None => Err(Fault::Line),
            },
            "name" => put_name(alloc, *text, out),
            _ => Err(Fault::Line),
        }
    }

    /// The aliases of the header of this text are in force.
    fn set_under(&mut self, alloc: Global, text: &str) -> Result<(), Fault> {
        let aliases = Some(aliases_in(alloc, text)?);
        drop(mem::replace(&mut self.aliases, aliases));
        Ok(())
    }
}
