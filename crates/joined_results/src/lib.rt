//! Results of calls that may fail for want of memory, joined into one. All calls are made, and what
//! some of them made is let go by the join where another fails: so a caller owns nothing at its one
//! way out. This project's own. It must not know what the calls make.
#![tactic(auto)]

mod joins;

pub use joins::{both, each_of_three};
