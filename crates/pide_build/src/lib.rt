//! A build from its messages to its bytes: the theories that the messages of a source name are
//! checked, each once, and what they report is written to a sink.
//!
//! The order of imports is cut into batches of nodes that don't wait for one another (`batches`:
//! the rounds, each of the nodes whose imports all stand in earlier ones, and at the end the nodes
//! that are not ordered, which wait for none). The nodes of a batch are tasks, done side by side
//! (`batch`): each begins from the states that the batches before left, its text is cut, all its
//! commands are run, and what is told of their reports is made of them at once; nothing else comes
//! of it than of one node after the other (`batch_laws`). A document is its batches one after the
//! other (`building`).
//!
//! This project's own. It must not know which language the theories are in, the real streams, nor
//! which worker checks what.
#![tactic(auto)]

mod batch;
mod batch_laws;
mod batches;
mod building;
mod built_batch;
mod documents;
mod fitting;
mod gathering;
mod imports;
mod inbox;
mod laws;
mod order_law;
mod progress;
mod replies;
mod run;
mod starting;
mod telling;
mod theories;

pub use batch::{Batch, check_batch};
pub use batch_laws::scratch_law;
pub use batches::batches_of;
pub use building::{Built, build};
pub use laws::replies_law;
pub use order_law::batches_law;
pub use run::{Ended, build_theories};
pub use starting::{Before, begin};
pub use telling::{BuiltNode, Checked, Telling};
