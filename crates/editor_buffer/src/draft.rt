//! Open nodes while the items of an update are made.
ghost use Rattle.std.specs.Prelude.{◌≡◌, ◌≢◌, ◌↔◌, false, None, IsTrue, IfOk};
ghost use Rattle.std.specs.Bool.{OnTrue};
ghost use Rattle.std.specs.List.{AllZip};
ghost use Rattle.shared_map.specs.Changes.{put};
ghost use Rattle.doc_nodes.specs.Names.{in_order};
ghost use Rattle.doc_nodes.specs.Imports.{NodeList};
ghost use Rattle.message_values.specs.declared.item.Change.{Change};
ghost use Rattle.buffer_rules.specs.Trying.{steps};
ghost use Rattle.buffer_rules.specs.Sheets.{sheet_of, sheet_after, change_one, item_once};
ghost use Rattle.editor_buffer.specs.Telling.{Tells};
ghost use Rattle.editor_buffer.specs.Standing.{sheets_of, Drafted};
ghost use Rattle.doc_nodes.specs.Heads.{heads};
ghost use Rattle.editor_buffer.specs.Heads.{KeepHeaders};

use crate::fault::PrepareError;
use crate::header::uncut;
use crate::headers::keeps_headers;
use crate::named::with_named;
use crate::open_node::OpenNode;
use doc_nodes::Nodes;
use joined_results::both;
use message_values::{Change, Item, Perspective, Refusal};
use pide_base::NodeName;
use shared_map::SharedMap;
use std::alloc::{AllocError, Global};
use text_edits::Edit;

/// The open nodes, by name.
pub type OpenNodes = SharedMap<NodeName, OpenNode>;

/// The open nodes while an update is made, and the nodes of the version that comes of it. A node
/// that an item names is there without commands, and its commands have to be cut; another is the
/// node of the version before. `headers_stand` tells that no item has changed a header so far:
/// there are nodes of the same names, with the same imports and keyword pairs, as before.
#[derive(Drop)]
pub struct Draft {
    pub opened: OpenNodes,
    pub nodes: Nodes,
    pub headers_stand: bool,
}

/// The node of the name after edits and a perspective, if there is one. It begins blank.
#[tactic(auto, using(crate::proofs::DraftLemmas::blank_steps))]
fn edited_node(
    alloc: Global,
    opened: &OpenNodes,
    name: &NodeName,
    edits: &[Edit],
    told: &Option<Perspective>,
) -> Result<OpenNode, PrepareError>
    ensures node { Tells (λ node. node.sheet) result
        (sheet_after edits.now told.now (sheet_of name.now (sheets_of opened.now))) }
    ensures uncut { IfOk result (λ node. node.cut_under ≡ None) }
{
    match opened.get(name) {
        Some(node) => node.edited(alloc, edits, told),
        None => OpenNode::blank(alloc)?.edited(alloc, edits, told),
    }
}

impl Draft {
    /// With an open node in the place of the one of its name.
    #[tactic(auto, using(crate::proofs::DraftLemmas::put_steps))]
    fn with_node(self, alloc: Global, name: &NodeName, node: OpenNode) -> Result<Draft, AllocError>
        requires { node.cut_under ≡ None }
        ensures opened { IfOk result (λ draft. sheets_of draft.opened
            ≡ put in_order (name.now, node.sheet) (sheets_of self.opened)) }
        ensures drafted { (tip : NodeList) → AllZip (Drafted tip) self.opened self.nodes
            → IfOk result (λ draft. AllZip (Drafted tip) draft.opened draft.nodes) }
        ensures headers { IfOk result (λ draft. IsTrue draft.headers_stand
            ↔ (IsTrue self.headers_stand × (heads draft.nodes ≡ heads self.nodes))) }
    {
        let made = uncut(alloc, node.sheet())?;
        let Draft {
            opened,
            nodes,
            headers_stand,
        } = self;
        let still = headers_stand && keeps_headers(&nodes, name, &made);
        let (opened, nodes) = both(
            with_named(alloc, opened, name, node),
            with_named(alloc, nodes, name, made),
        )?;
        Ok(Draft {
            opened,
            nodes,
            headers_stand: still,
        })
    }

    /// Without the node of the name.
    #[tactic(auto, using(crate::proofs::DraftLemmas::closing_steps))]
    fn without_node(self, alloc: Global, name: &NodeName) -> Result<Draft, PrepareError>
        ensures opened { Tells (λ draft. sheets_of draft.opened) result
            (change_one name.now Change.Close (sheets_of self.opened)) }
        ensures drafted { (tip : NodeList) → AllZip (Drafted tip) self.opened self.nodes
            → IfOk result (λ draft. AllZip (Drafted tip) draft.opened draft.nodes) }
        ensures headers { (tip : NodeList) → AllZip (Drafted tip) self.opened self.nodes
            → IfOk result (λ draft. (draft.headers_stand ≡ false)
            × (heads draft.nodes ≢ heads self.nodes)) }
    {
        let Draft {
            mut opened,
            mut nodes,
            headers_stand: _,
        } = self;
        if !opened.remove(alloc, name)? {
            return Err(PrepareError::Refused(Refusal::UnknownNode));
        }
        nodes.remove(alloc, name)?;
        Ok(Draft {
            opened,
            nodes,
            headers_stand: false,
        })
    }

    /// After one item. At an error all is let go.
    #[tactic(auto, using(crate::proofs::DraftLemmas::item_steps))]
    fn with_item(self, alloc: Global, item: &Item) -> Result<Draft, PrepareError>
        ensures opened { Tells (λ draft. sheets_of draft.opened) result
            (item_once item.now (sheets_of self.opened)) }
        ensures drafted { (tip : NodeList) → AllZip (Drafted tip) self.opened self.nodes
            → IfOk result (λ draft. AllZip (Drafted tip) draft.opened draft.nodes) }
        ensures headers { (tip : NodeList) → AllZip (Drafted tip) self.opened self.nodes
            → IfOk result (λ draft. IsTrue draft.headers_stand
            ↔ (IsTrue self.headers_stand × (heads draft.nodes ≡ heads self.nodes))) }
    {
        match &item.change {
            Change::Close => self.without_node(alloc, &item.node),
            Change::Edit { edits, perspective } => {
                let edits = edits.as_slice();
                let node = edited_node(alloc, &self.opened, &item.node, edits, perspective)?;
                Ok(self.with_node(alloc, &item.node, node)?)
            }
        }
    }

    /// After the items, one after the other. `UnknownNode`, `EditOutOfRange`, `RemoveDiffers` and
    /// `PerspectiveOutOfRange` come with the first item that is refused. At an error all is let go.
    pub fn with_items(self, alloc: Global, items: &[Item]) -> Result<Draft, PrepareError>
        ensures opened { Tells (λ draft. sheets_of draft.opened) result
            (steps item_once items.now (sheets_of self.opened)) }
        ensures drafted { (tip : NodeList) → AllZip (Drafted tip) self.opened self.nodes
            → IfOk result (λ draft. AllZip (Drafted tip) draft.opened draft.nodes) }
        ensures headers { (tip : NodeList) → AllZip (Drafted tip) self.opened self.nodes
            → IfOk result (λ draft. IsTrue draft.headers_stand
            ↔ (IsTrue self.headers_stand × KeepHeaders items.now (sheets_of self.opened))) }
        ensures stand { (tip : NodeList) → AllZip (Drafted tip) self.opened self.nodes
            → IfOk result (λ draft. OnTrue draft.headers_stand
            (heads draft.nodes ≡ heads self.nodes)) }
    {
        let mut draft = self;
        let mut rest = items;
        'each: while let [item, more @ ..] = rest {
            draft = draft.with_item(alloc, item)?;
            rest = more;
        }
        Ok(draft)
    }
}
