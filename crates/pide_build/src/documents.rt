//! The nodes of theories.
ghost use Rattle.std.specs.Prelude.{◌≡◌, IfOk};
ghost use Rattle.buffer_rules.specs.Nodes.{uncut, uncut_all};
ghost use Rattle.pide_build.specs.Documents.{sheet_of, sheets_of};

use crate::theories::{Theories, shared};
use buffer_rules::Sheet;
use doc_nodes::{Node, Nodes, Shared};
use editor_buffer::uncut;
use joined_results::both;
use sqlite_items::Items;
use std::alloc::{AllocError, Global};
use text_edits::Text;

/// A text, all of which is wanted, while nothing is visible.
fn sheet_of(alloc: Global, text: &Shared<Text>) -> Result<Sheet, AllocError>
    ensures { IfOk result (λ sheet. sheet ≡ sheet_of text.now) }
{
    let (text, ranges) = both(text.copy(), shared(alloc, Items::new(alloc)))?;
    Ok(Sheet {
        text,
        required: true,
        ranges,
    })
}

/// The node of a text, with its header and no commands yet. No more of the text is read than that.
fn node_of(alloc: Global, text: &Shared<Text>) -> Result<Node, AllocError>
    ensures { IfOk result (λ node. node ≡ uncut (sheet_of text.now)) }
{
    let sheet = sheet_of(alloc, text)?;
    let node = uncut(alloc, &sheet);
    drop(sheet);
    node
}

/// The nodes of theories, each with the header of its text and no commands yet.
pub(crate) fn nodes_of(alloc: Global, theories: &Theories) -> Result<Nodes, AllocError>
    ensures { IfOk result (λ nodes. nodes ≡ uncut_all (sheets_of theories.now)) }
{
    let mut nodes = Nodes::new();
    let mut rest = theories.iter();
    'theories: while let Some((name, text)) = rest.next() {
        let (name, node) = both(name.clone(), node_of(alloc, text))?;
        nodes.set(alloc, name, node)?;
    }
    Ok(nodes)
}
