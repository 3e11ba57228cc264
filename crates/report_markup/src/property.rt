//! Properties of reports.
ghost use Rattle.std.specs.Prelude.{◌≡◌, Bool};
ghost use Rattle.std.proofs.Common.{rules};
ghost use Rattle.std.specs.Cmp.{partial_order_from_own_ties};
ghost use Rattle.std.specs.Cmp.Rules.{comparing};
ghost use Rattle.std.specs.Ordering.{as_partial_cmp, eq_by_cmp};
ghost use Rattle.report_markup.specs.Words.{key_word};

use crate::plain_text::PlainText;
use std::cmp::Ordering;

/// The key of a property.
#[derive(Clone, Copy, Debug, PartialEq, Eq)]
pub enum PropertyKey {
    /// The theory that a fact belongs to.
    Theory,
    /// The name that the report is about.
    Name,
}

impl PropertyKey {
    /// The key's word.
    pub fn word(self) -> &'static str
        ensures { result.now ≡ key_word self }
    {
        match self {
            PropertyKey::Theory => "theory",
            PropertyKey::Name => "name",
        }
    }
}

/// A key with its value.
#[derive(Debug, Drop)]
pub struct Property {
    pub key: PropertyKey,
    pub value: PlainText,
}

impl Ord for Property {
    ghost use Rattle.report_markup.specs.PropertyOrder.{property_cmp};

    ghost cmp = { property_cmp };

    ghost total = { Prim.search (comparing, rules) depth 9 };

    ghost matches_partial_cmp = { Prim.search (comparing, rules) depth 9 };

    ghost matches_eq = { Prim.search (comparing, rules) depth 9 };

    /// By key, then by value, both by their bytes.
    fn cmp(&self, other: &Property) -> Ordering {
        let keys = self.key.word().cmp(other.key.word());
        keys.then(self.value.as_str().cmp(other.value.as_str()))
    }
}

impl PartialOrd for Property {
    ghost use Rattle.report_markup.specs.PropertyOrder.{property_cmp};

    ghost partial_cmp = { as_partial_cmp property_cmp };

    ghost laws = { partial_order_from_own_ties (Prim.search (comparing, rules) depth 9)
        (Prim.search (comparing, rules) depth 9) };

    fn partial_cmp(&self, other: &Property) -> Option<Ordering> {
        Some(self.cmp(other))
    }
}

impl PartialEq for Property {
    ghost use Rattle.report_markup.specs.PropertyOrder.{property_cmp};

    ghost eq = { eq_by_cmp property_cmp };

    ghost laws = { Prim.search (comparing, rules) depth 9 };

    fn eq(&self, other: &Property) -> bool {
        self.cmp(other) == Ordering::Equal
    }
}

impl Eq for Property {
    ghost laws = { Prim.search (comparing, rules) depth 9 };
}
