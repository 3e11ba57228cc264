//! The kernel of natural deduction: a theorem comes only from a rule of Gentzen's NJ
//! (Untersuchungen über das logische Schließen, 1935), here with negation as a connective of its
//! own. A rule takes one pass over the assumptions of its premises, and copies no formula.
//!
//! To know what a `Thm` is worth, read `thm.rt`, `specs/Nj.antt` and `specs/Sets.antt`; what each
//! rule answers stands in `specs/Rules.antt`. It must not know text, theories or proof terms.
#![tactic(auto)]

mod consistency;
mod fault;
mod hyp;
mod hyps;
mod key;
mod made;
mod quantifiers;
mod rule;
mod rules;
mod thm;

pub use consistency::{consistency_law, soundness_law};
pub use fault::{RuleError, RuleFault};
pub use hyp::Hyp;
pub use quantifiers::{all_e, all_i, ex_e, ex_i};
pub use rule::Rule;
pub use rules::{
    assume, conj_e1, conj_e2, conj_i, disj_e, disj_i1, disj_i2, false_e, imp_e, imp_i, not_e, not_i,
};
pub use thm::Thm;
