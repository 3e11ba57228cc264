//! One node of the document.
ghost use Rattle.std.specs.Prelude.{◌≡◌, IfOk};

use crate::blob_name::BlobName;
use crate::shared::Shared;
use joined_results::both;
use outer_syntax::KeywordPair;
use shared_map::SharedMap;
use sqlite_items::Items;
use std::alloc::AllocError;
use text_edits::Text;
use text_edits::pide_base_below::{CommandId, NodeName, Range};

/// A command of a node.
#[derive(Debug, Drop)]
pub struct Entry {
    pub command: CommandId,
    /// Where its span stands in the node's text, in scalars.
    pub range: Range,
    /// Whether the span shares a scalar with a range of the perspective.
    pub visible: bool,
    /// The blob that the command asks for.
    pub needs: Option<BlobName>,
}

/// A node of the document. All that costs its size is shared, so a copy takes constant time.
#[derive(Debug, Drop)]
pub struct Node {
    /// The text, in scalars.
    pub text: Shared<Text>,
    /// The commands, in the order of their places.
    pub entries: Shared<Items<Entry>>,
    /// Whether all commands are wanted, seen or not.
    pub required: bool,
    /// The imports of the header, in its order. Each is an identifier of any length, so one may be
    /// no node's name.
    pub imports: Shared<Items<Items<char>>>,
    /// The keyword pairs of the node's own header, in its order.
    pub keywords: Shared<Items<KeywordPair>>,
}

/// The nodes of a version, by name.
pub type Nodes = SharedMap<NodeName, Node>;

impl Node {
    /// The same node, in the same memory.
    pub fn copy(&self) -> Result<Node, AllocError>
        ensures { IfOk result (λ node. node ≡ self.now) }
    {
        let body = both(self.text.copy(), self.entries.copy());
        let header = both(self.imports.copy(), self.keywords.copy());
        let ((text, entries), (imports, keywords)) = both(body, header)?;
        Ok(Node {
            text,
            entries,
            required: self.required,
            imports,
            keywords,
        })
    }
}
