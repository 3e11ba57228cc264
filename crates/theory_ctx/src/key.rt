ghost use Rattle.std.specs.Prelude.{◌≡◌, IfOk};

use nj_formula::Name;
use shared_map::Cut;
use std::alloc::{AllocError, Global};
use std::cmp::Ordering;
use std::marker::Model;

/// A name as the key of a map; keys lie in the order of their bytes. Contracts see it as its bytes.
#[derive(Drop)]
pub(crate) struct Key {
    pub(crate) name: Name,
}

impl Key {
    /// The key that the name is, in the same memory.
    pub(crate) fn copied(alloc: Global, name: &Name) -> Result<Key, AllocError>
        ensures { IfOk result (λ key. key ≡ name.now) }
    {
        let name = name.copy(alloc)?;
        Ok(Key { name })
    }
}

impl Model for Key {
    ghost use Rattle.std.specs.Prelude.{ℕ, List};

    ghost Value = { List ℕ };

    ghost view = { λ key. key.name };
}

impl PartialEq for Key {
    ghost use Rattle.std.specs.Ordering.{eq_by_cmp};
    ghost use Rattle.std.proofs.Common.{rules};
    ghost use Rattle.std.proofs.lemmas.Cmp.{nat_list_cmp_total};
    ghost use Rattle.std.specs.Cmp.Rules.{comparing};
    ghost use Rattle.theory_ctx.specs.Order.{by_bytes};

    ghost eq = { eq_by_cmp by_bytes };

    ghost laws = { Prim.search (comparing, rules, nat_list_cmp_total) };

    fn eq(&self, other: &Key) -> bool {
        self.cmp(other).is_eq()
    }
}

impl Eq for Key {
    ghost use Rattle.std.proofs.Common.{rules};
    ghost use Rattle.std.proofs.lemmas.Cmp.{nat_list_cmp_total};
    ghost use Rattle.std.specs.Cmp.Rules.{comparing};

    ghost laws = { Prim.search (comparing, rules, nat_list_cmp_total) };
}

impl Ord for Key {
    ghost use Rattle.std.proofs.Common.{rules};
    ghost use Rattle.std.proofs.lemmas.Cmp.{nat_list_cmp_total};
    ghost use Rattle.std.specs.Cmp.Rules.{comparing};
    ghost use Rattle.theory_ctx.specs.Order.{by_bytes};

    ghost cmp = { by_bytes };

    ghost total = { nat_list_cmp_total };

    ghost matches_partial_cmp = { Prim.search (comparing, rules) };

    ghost matches_eq = { Prim.search (comparing, rules) };

    fn cmp(&self, other: &Key) -> Ordering {
        self.name.as_str().cmp(other.name.as_str())
    }
}

impl PartialOrd for Key {
    ghost use Rattle.std.specs.Cmp.{partial_order_from_total};
    ghost use Rattle.std.specs.Ordering.{as_partial_cmp};
    ghost use Rattle.std.proofs.lemmas.Cmp.{nat_list_cmp_total};
    ghost use Rattle.theory_ctx.specs.Order.{by_bytes};

    ghost partial_cmp = { as_partial_cmp by_bytes };

    ghost laws = { partial_order_from_total nat_list_cmp_total };

    fn partial_cmp(&self, other: &Key) -> Option<Ordering> {
        Some(self.cmp(other))
    }
}

/// The key that is spelled so.
#[derive(Clone, Copy)]
pub(crate) struct Spelled<'a> {
    pub(crate) name: &'a str,
}

impl<'a> Cut<Key> for Spelled<'a> {
    ghost use Rattle.std.proofs.lemmas.Cmp.{nat_list_cmp_total};
    ghost use Rattle.shared_map.specs.Cuts.{at_key};
    ghost use Rattle.shared_map.specs.KeyCut.{is_cut-at_key};
    ghost use Rattle.theory_ctx.specs.Order.{by_bytes};

    ghost place = { λ cut. at_key by_bytes cut.name.now };

    ghost rises = { λ cut. is_cut-at_key nat_list_cmp_total cut.name.now };

    fn place(&self, key: &Key) -> Ordering {
        key.name.as_str().cmp(self.name)
    }
}
