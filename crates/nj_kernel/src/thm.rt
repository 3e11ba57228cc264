ghost use Rattle.std.specs.Prelude.{◌≡◌, map, IsTrue, IfOk};
ghost use Rattle.nj_formula.specs.Meaning.{meaning};
ghost use Rattle.nj_kernel.specs.Nj.{Nj};
ghost use Rattle.nj_kernel.specs.Order.{rises};

use crate::hyp::Hyp;
use nj_formula::{Formula, Shared};
use sqlite_items::Items;
use std::alloc::AllocError;

/// A theorem: a conclusion and the set of formulas that it assumes. Its parts are private and no
/// call makes one but the rules of this crate, so whoever holds a `Thm` holds a formula that NJ
/// derives.
#[derive(Debug)]
pub struct Thm {
    hyps: Shared<Items<Hyp>>,
    concl: Formula,
    pub ghost derivable: { ∥ Nj (map meaning hyps) (meaning concl) ∥₁ },
    pub ghost ordered: { IsTrue (rises (map meaning hyps)) },
}

/// By hand, so that a theorem is let go by one call wherever it ends.
impl Drop for Thm {
    fn drop(self) {
        let Thm { hyps, concl } = self;
        drop(hyps);
        drop(concl);
    }
}

impl Thm {
    ghost use Rattle.nj_kernel.specs.Sets.{Once};
    ghost use Rattle.nj_kernel.specs.Theorem.{assumed, shown};

    /// The formulas that it assumes, each once, in an order of the kernel's own.
    pub fn hyps(&self) -> &[Hyp]
        ensures value { map meaning result.now ≡ assumed self.now }
        ensures once { Once (assumed self.now) }
    {
        self.hyps.get().as_slice()
    }

    /// The formula that it shows.
    pub fn concl(&self) -> &Formula
        ensures { meaning result.now ≡ shown self.now }
    {
        &self.concl
    }

    /// The same set of assumptions, in constant time.
    pub(crate) fn shared_hyps(&self) -> Result<Shared<Items<Hyp>>, AllocError>
        ensures { IfOk result (λ hyps. map meaning hyps ≡ assumed self.now) }
    {
        self.hyps.copy()
    }

    /// The only way to a theorem. What it asks for is that the rule which calls it is a rule of NJ.
    pub(crate) fn derived(hyps: Shared<Items<Hyp>>, concl: Formula) -> Thm
        requires rule { ∥ Nj (map meaning hyps) (meaning concl) ∥₁ }
        requires ordered { IsTrue (rises (map meaning hyps)) }
        ensures assumed { assumed result ≡ map meaning hyps }
        ensures shown { shown result ≡ meaning concl }
    {
        Thm { hyps, concl }
    }
}
