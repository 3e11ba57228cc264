//! The editor's buffer under updates (`editor_buffer`).
use crate::asking::Asked;
use doc_nodes::{Node, Nodes};
use editor_buffer::{Buffer, PrepareError, Prepared};
use script_lines::{Fault, place};
use std::alloc::{AllocError, Global};

/// A buffer under updates.
#[derive(Drop)]
pub(crate) struct Edited {
    buffer: Buffer,
}

/// The ids of a node's commands, with a star behind each that is seen.
fn put_ids(out: &mut String, node: &Node) -> Result<(), AllocError> {
    for entry in node.entries.get().as_slice() {
        let id = entry.command.number();
        let mark = if entry.visible { "*" } else { "" };
        write!(out, " {id}{mark}")?;
    }
    Ok(())
}

/// The nodes with the ids of their commands, an equality sign before each that is left untouched.
fn put_nodes(out: &mut String, nodes: &Nodes, untouched: &[bool]) -> Result<(), AllocError> {
    for ((name, node), stays) in nodes.iter().zip(untouched) {
        out.push_str(if *stays { "=" } else { "" })?;
        out.push_str(name.as_str())?;
        put_ids(out, node)?;
        out.push_str("; ")?;
    }
    Ok(())
}

/// The nodes, and how many blobs changed.
fn put_prepared(out: &mut String, made: &Prepared) -> Result<(), AllocError> {
    put_nodes(out, made.nodes(), made.untouched())?;
    let blobs = made.changed().len();
    if blobs > 0 {
        write!(out, "blobs {blobs}")?;
    }
    Ok(())
}

impl Edited {
    pub(crate) fn new() -> Edited {
        Edited {
            buffer: Buffer::new(),
        }
    }

    /// What an update comes to: the nodes, and how many blobs changed; or the number of the
    /// refusal.
    pub(crate) fn outcome(
        &mut self,
        alloc: Global,
        live: usize,
        asked: &Asked,
        out: &mut String,
    ) -> Result<(), Fault> {
        match self.buffer.prepare(alloc, live, &asked.items, &asked.blobs) {
            Ok(made) => self.commit(made, out),
            Err(PrepareError::Refused(refusal)) => {
                Ok(write!(out, "refused {}", refusal.number())?)
            }
            Err(PrepareError::NoMemory) => Err(Fault::NoMemory),
        }
    }

    fn commit(&mut self, made: Prepared, out: &mut String) -> Result<(), Fault> {
        let told = put_prepared(out, &made);
        self.buffer.commit(made);
        Ok(told?)
    }

    /// The same, where a word may tell how many versions are live.
    pub(crate) fn update(
        &mut self,
        alloc: Global,
        words: &[&str],
        asked: &Asked,
        out: &mut String,
    ) -> Result<(), Fault> {
        match words {
            [] => self.outcome(alloc, 0, asked, out),
            [live] => self.outcome(alloc, place(*live)?, asked, out),
            _ => Err(Fault::Line),
        }
    }
}
