//! Which commands a node wants by itself.
ghost use Rattle.std.specs.Prelude.{◌≡◌, length};
ghost use Rattle.doc_nodes.specs.Prefix.{wanted_prefix, own_wanted};

use crate::node::{Entry, Node};

/// How many commands stand up to the last visible one.
pub fn wanted_prefix(entries: &[Entry]) -> usize
    ensures { result ≡ wanted_prefix entries.now }
{
    let mut count = entries.len();
    'hidden: while 0 < count && !entries[count - 1].visible {
        count -= 1;
    }
    count
}

/// How many commands the node wants by itself.
pub(crate) fn own_wanted(node: &Node) -> usize
    ensures { result ≡ own_wanted node.now }
{
    if node.required {
        node.entries.get().len()
    } else {
        wanted_prefix(node.entries.get().as_slice())
    }
}
