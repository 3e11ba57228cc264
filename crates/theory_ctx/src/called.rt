ghost use Rattle.std.specs.Prelude.{◌≡◌};
ghost use Rattle.theory_ctx.specs.Order.{to_name, to_fact};

use crate::fact_name::FactName;
use shared_map::Cut;
use std::cmp::Ordering;

/// All facts of a name.
#[derive(Clone, Copy)]
pub(crate) struct Named<'a> {
    pub(crate) name: &'a str,
}

impl<'a> Cut<FactName> for Named<'a> {
    ghost use Rattle.theory_ctx.specs.Order.{to_name, is_cut-to_name};

    ghost place = { λ cut. to_name cut.name.now };

    ghost rises = { λ cut. is_cut-to_name cut.name.now };

    fn place(&self, fact: &FactName) -> Ordering {
        fact.name.as_str().cmp(self.name)
    }
}

/// The fact of this name of this theory.
#[derive(Clone, Copy)]
pub(crate) struct Called<'a> {
    pub(crate) theory: &'a str,
    pub(crate) name: &'a str,
}

impl<'a> Cut<FactName> for Called<'a> {
    ghost use Rattle.shared_map.specs.KeyCut.{is_cut-at_key};
    ghost use Rattle.theory_ctx.specs.Order.{to_fact, by_name_total};

    ghost place = { λ cut. to_fact cut.theory.now cut.name.now };

    ghost rises = { λ cut. is_cut-at_key by_name_total
        (record { name = cut.name.now; theory = cut.theory.now }) };

    fn place(&self, fact: &FactName) -> Ordering {
        match fact.name.as_str().cmp(self.name) {
            Ordering::Equal => fact.theory.as_str().cmp(self.theory),
            unequal => unequal,
        }
    }
}
