//! The words that every layer shares: names of nodes, ids, parts of executions, ranges, the limits
//! of a document (how many nodes and blobs a version has, how long a text is, how many versions
//! live), the statuses that the program ends with, and the traits by which it meets the outside.
//!
//! Versions, commands and executions are those of Wenzel, "Asynchronous User Interaction and Tool
//! Integration in Isabelle/PIDE" (ITP 2014); their numbers, the limits and the traits are this
//! project's own. It must not know of messages, what a document holds, the language, threads or the
//! real streams.
#![tactic(auto)]

mod flag;
mod gate;
mod ids;
mod limits;
mod never;
mod node_name;
mod part;
mod push_all;
mod range;
mod sink;
mod source;
mod status;
mod stop;

pub use flag::Flag;
pub use gate::{Gate, Point};
pub use ids::{CommandId, ExecId, ID_END, VersionId};
pub use limits::{are_too_many, are_too_many_live, is_too_long};
pub use never::Never;
pub use node_name::{NodeName, is_node_name};
pub use part::{Part, PartKind};
pub use push_all::push_whole;
pub use range::Range;
pub use sink::{Pushed, Sink};
pub use source::{Pulled, Source};
pub use status::Status;
pub use stop::Stop;
