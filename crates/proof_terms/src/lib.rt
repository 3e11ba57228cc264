//! Proof terms: what stands behind `by`, read from the tokens of its source. A term is a cited
//! fact, or a rule of natural deduction with what it is made of: formulas, terms of the object
//! language, names and further proof terms. The rules are Gentzen's (1935); how terms are written,
//! how deep they may nest and what is told first of a wrong one are this project's own.
//!
//! To know what is promised, read `specs/Slots.antt` (the table of rules), `specs/Grammar.antt` and
//! `specs/Faults.antt`; `specs/Reading.antt` is the same answer as a function. It must not know
//! facts, goals or theorems.
#![tactic(auto)]

mod fault;
mod inside;
mod law;
mod mark;
mod reader;
mod reading;
mod rule_names;
mod term;

pub use fault::{TermError, TermFault};
pub use law::{cited_on_tokens, one_answer};
pub use reading::{deepest, read};
pub use rule_names::rule_named;
pub use term::{Cite, Term};
