//! Nodes by names in scalars.

use crate::compared::compared;
use shared_map::Cut;
use std::cmp::Ordering;
use text_edits::pide_base_below::NodeName;

/// The node of a name in scalars, as a cut of the nodes.
#[derive(Clone, Copy)]
pub struct Called<'a> {
    pub name: &'a [char],
}

impl<'a> Cut<NodeName> for Called<'a> {
    ghost use Rattle.std.specs.Cmp.Lexicographic.{nat_list_cmp_total};
    ghost use Rattle.shared_map.specs.Cuts.{at_key};
    ghost use Rattle.shared_map.specs.KeyCut.{is_cut-at_key};
    ghost use Rattle.doc_nodes.specs.Names.{in_order};

    ghost place = { λ cut. at_key in_order cut.name.now };

    ghost rises = { λ cut. is_cut-at_key nat_list_cmp_total cut.name.now };

    fn place(&self, node: &NodeName) -> Ordering {
        compared(node.as_str().as_bytes(), self.name)
    }
}
