//! What live versions had and later ones have not, and the numbers of the executions that came next
//! when they were made: by these a removal of versions finds what goes with them, and looks at no
//! version.
//!
//! Versions and executions are those of Wenzel, "Asynchronous User Interaction and Tool Integration
//! in Isabelle/PIDE" (ITP 2014); the lists are this project's own. It must not know a language,
//! what has happened, tasks or workers.
#![tactic(auto)]

mod leaving;
mod losses;
mod since;
mod walk;

pub use leaving::Leaving;
pub use losses::{Loss, Losses};
pub use walk::add_below;
