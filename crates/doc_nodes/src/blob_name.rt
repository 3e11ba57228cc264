//! Names of blobs. A contract sees one as its bytes.
ghost use Rattle.std.specs.Prelude.{◌≡◌, ◌↔◌, IsTrue, IsOk, IfOk, IfErr, Some, refl};
ghost use Rattle.std.specs.String.{string_bytes};
ghost use Rattle.std.specs.Ordering.{nat_cmp};
ghost use Rattle.std.specs.Cmp.{partial_equiv_from_equiv};
ghost use Rattle.std.specs.Cmp.Lexicographic.{pointwise, slice_cmp, nat_list_eq_equiv, nat_list_cmp_total, texts_ties, texts_po};
ghost use Rattle.std.specs.Prelude.{nat_eq};
ghost use Rattle.text_edits.specs.pide_base_below.NodeName.{is_node_name};

use std::alloc::AllocError;
use std::cmp::Ordering;
use std::fmt;
use std::marker::Model;
use text_edits::pide_base_below::NodeName;

/// The name of an auxiliary blob, which is as a node's name: an identifier of at most 64
/// characters. Names are ordered by their bytes.
#[derive(Drop)]
pub struct BlobName {
    name: NodeName,
}

impl Model for BlobName {
    ghost use Rattle.std.specs.Prelude.{ℕ, List, IsTrue};
    ghost use Rattle.text_edits.specs.pide_base_below.NodeName.{is_node_name};

    ghost Value = { List ℕ };

    ghost view = { λ blob. blob.name };

    ghost invariant = { λ blob. IsTrue (is_node_name blob.name) };
}

impl BlobName {
    /// The name of this text. A text that is none is handed back.
    pub fn new(text: String) -> Result<BlobName, String>
        ensures accepted { IsOk result ↔ IsTrue (is_node_name (string_bytes text)) }
        ensures ok { IfOk result (λ blob. blob ≡ string_bytes text) }
        ensures err { IfErr result (λ back. back ≡ text) }
    {
        match NodeName::new(text) {
            Ok(name) => {
                let _text = name.as_str();
                Ok(BlobName { name })
            }
            Err(text) => Err(text),
        }
    }

    /// Its text.
    pub fn as_str(&self) -> &str
        ensures value { result.now ≡ self.now }
        ensures valid { IsTrue (is_node_name result.now) }
    {
        self.name.as_str()
    }
}

impl Clone for BlobName {
    ghost is_clone = { λ name copy. copy ≡ name };

    fn clone(&self) -> Result<BlobName, AllocError> {
        let name = self.name.clone()?;
        let _text = name.as_str();
        Ok(BlobName { name })
    }
}

impl PartialEq for BlobName {
    ghost eq = { pointwise nat_eq };

    ghost laws = { partial_equiv_from_equiv nat_list_eq_equiv };

    fn eq(&self, other: &BlobName) -> bool {
        self.name == other.name
    }
}

impl Eq for BlobName {
    ghost laws = { nat_list_eq_equiv };
}

impl PartialOrd for BlobName {
    ghost partial_cmp = { λ a b. Some (slice_cmp nat_cmp a b) };

    ghost laws = { texts_po };

    fn partial_cmp(&self, other: &BlobName) -> Option<Ordering> {
        Some(self.cmp(other))
    }
}

impl Ord for BlobName {
    ghost cmp = { slice_cmp nat_cmp };

    ghost total = { nat_list_cmp_total };

    ghost matches_partial_cmp = { λ a b. refl };

    ghost matches_eq = { texts_ties };

    fn cmp(&self, other: &BlobName) -> Ordering {
        self.name.cmp(&other.name)
    }
}

impl fmt::Display for BlobName {
    ghost output = { λ blob. Some blob };

    fn fmt<W: fmt::Write>(&self, f: &mut fmt::Formatter<W>) -> fmt::Result {
        fmt::Display::fmt(&self.as_str(), f)
    }
}

impl fmt::Debug for BlobName {
    fn fmt<W: fmt::Write>(&self, f: &mut fmt::Formatter<W>) -> fmt::Result {
        fmt::Debug::fmt(&self.as_str(), f)
    }
}
