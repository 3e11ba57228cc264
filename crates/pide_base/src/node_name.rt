//! Names of nodes. A contract sees one as its bytes.
ghost use Rattle.std.specs.Prelude.{◌≡◌, ◌↔◌, IsTrue, IsOk, IfOk, IfErr, IfSome, Some, refl};
ghost use Rattle.std.specs.String.{string_bytes};
ghost use Rattle.std.specs.Ordering.{nat_cmp};
ghost use Rattle.std.specs.Cmp.{partial_equiv_from_equiv};
ghost use Rattle.std.specs.Cmp.Lexicographic.{pointwise, slice_cmp, nat_list_eq_equiv, nat_list_cmp_total, texts_ties, texts_po};
ghost use Rattle.std.specs.Prelude.{nat_eq};
ghost use Rattle.pide_base.specs.NodeName.{is_node_name};

use std::alloc::{AllocError, Global};
use std::cmp::Ordering;
use std::convert::AsStr;
use std::fmt;
use std::marker::Model;
use text_words::is_identifier;

/// The most characters of a node's name.
const MOST_CHARACTERS: usize = 64;

/// The name of a node: an identifier of at most 64 characters. Names are ordered by their bytes.
#[derive(Drop)]
pub struct NodeName {
    text: String,
}

impl Model for NodeName {
    ghost use Rattle.std.specs.Prelude.{ℕ, List, IsTrue};
    ghost use Rattle.std.specs.String.{string_bytes};
    ghost use Rattle.pide_base.specs.NodeName.{is_node_name};

    ghost Value = { List ℕ };

    ghost view = { λ name. string_bytes name.text };

    ghost invariant = { λ name. IsTrue (is_node_name (string_bytes name.text)) };
}

/// Whether the bytes are a node's name: an identifier of at most 64 characters.
pub fn is_node_name(bytes: &[u8]) -> bool
    ensures { result ≡ is_node_name bytes.now }
{
    is_identifier(bytes) && bytes.len() <= MOST_CHARACTERS
}

impl NodeName {
    /// The name of this text. A text that is none is handed back.
    pub fn new(text: String) -> Result<NodeName, String>
        ensures accepted { IsOk result ↔ IsTrue (is_node_name (string_bytes text)) }
        ensures ok { IfOk result (λ name. name ≡ string_bytes text) }
        ensures err { IfErr result (λ back. back ≡ text) }
    {
        if !is_node_name(text.as_bytes()) {
            return Err(text);
        }
        Ok(NodeName { text })
    }

    /// Its text.
    pub fn as_str(&self) -> &str
        ensures value { result.now ≡ self.now }
        ensures valid { IsTrue (is_node_name result.now) }
    {
        self.text.as_str()
    }
}

impl AsStr for NodeName {
    ghost text = { λ name. name };

    fn as_str(&self) -> &str {
        NodeName::as_str(self)
    }
}

impl Clone for NodeName {
    ghost is_clone = { λ name copy. copy ≡ name };

    fn clone(&self) -> Result<NodeName, AllocError> {
        Ok(NodeName {
            text: self.text.clone()?,
        })
    }
}

impl PartialEq for NodeName {
    ghost eq = { pointwise nat_eq };

    ghost laws = { partial_equiv_from_equiv nat_list_eq_equiv };

    fn eq(&self, other: &NodeName) -> bool {
        self.as_str() == other.as_str()
    }
}

impl Eq for NodeName {
    ghost laws = { nat_list_eq_equiv };
}

impl PartialOrd for NodeName {
    ghost partial_cmp = { λ a b. Some (slice_cmp nat_cmp a b) };

    ghost laws = { texts_po };

    fn partial_cmp(&self, other: &NodeName) -> Option<Ordering> {
        Some(self.cmp(other))
    }
}

impl Ord for NodeName {
    ghost cmp = { slice_cmp nat_cmp };

    ghost total = { nat_list_cmp_total };

    ghost matches_partial_cmp = { λ a b. refl };

    ghost matches_eq = { texts_ties };

    fn cmp(&self, other: &NodeName) -> Ordering {
        self.as_str().cmp(other.as_str())
    }
}

impl fmt::Display for NodeName {
    ghost output = { λ name. Some name };

    fn fmt<W: fmt::Write>(&self, f: &mut fmt::Formatter<W>) -> fmt::Result {
        fmt::Display::fmt(&self.as_str(), f)
    }
}

impl fmt::Debug for NodeName {
    fn fmt<W: fmt::Write>(&self, f: &mut fmt::Formatter<W>) -> fmt::Result {
        fmt::Debug::fmt(&self.as_str(), f)
    }
}
