//! The check of a proof term against a goal, in natural deduction (Gentzen 1935): a rule is taken
//! apart into parts, each with a goal of its own and perhaps an assumption that it alone may cite;
//! the parts are checked from the left, and the kernel's rule joins their theorems. What is told
//! first of a wrong term is this project's own.
//!
//! To know what is promised, read `specs/Rows.antt` (what each rule asks for), `specs/Checks.antt`
//! (the answer to a term) and `specs/Answers.antt` (what a call says). It must not know text,
//! tokens, proof states or threads.
#![tactic(auto)]

mod checked;
mod checking;
mod cited;
mod conclusions;
mod eliminations;
mod halt;
mod introductions;
mod joins;
mod laws;
mod parts;
mod proving;
mod same;
mod step;
mod steps;

pub use checked::Checked;
pub use checking::check;
pub use laws::checks_law;
