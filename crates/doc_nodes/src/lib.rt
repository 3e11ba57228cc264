//! The nodes of a version of the document: their order by imports, the aliases that are in force in
//! each, how many of each node's commands are wanted, and which auxiliary blob a command asks for.
//!
//! Nodes, imports, keywords of headers, perspectives and blobs are those of Wenzel, "Asynchronous
//! User Interaction and Tool Integration in Isabelle/PIDE" (ITP 2014) and of the Isabelle System
//! manual; the rounds of imports, the fold of aliases, the rule for what is wanted and the shape of
//! the command that loads a blob are this project's own.
//!
//! A version's nodes are a persistent map by name (`Nodes`), for the editor's side and the
//! prover's: a version shares with the one before it all but the nodes that changed. What goes by
//! imports goes by places, counted from 0 in the order of names: `ImportGraph` finds each import's
//! place once, and all else is told by place. It must not know of edits, versions, executions or
//! the language.
#![tactic(auto)]

mod alias;
mod asking;
mod blob_name;
mod called;
mod compared;
mod folding;
mod graph;
mod importers;
mod inherited;
mod laws;
mod naming;
mod node;
mod offer;
mod placed;
mod prefix;
mod round_laws;
mod rounds;
mod shared;
mod wanted;
mod word;

pub use alias::{Aliases, is_target};
pub use asking::needs;
pub use blob_name::BlobName;
pub use called::Called;
pub use graph::ImportGraph;
pub use inherited::{NodeAliases, aliases_of};
pub use laws::{aliases_law, order_law, prefix_law, wanted_law};
pub use naming::meant;
pub use node::{Entry, Node, Nodes};
pub use placed::{Placed, import_order};
pub use prefix::wanted_prefix;
pub use round_laws::rounds_law;
pub use rounds::{in_rounds, marks_of};
pub use shared::Shared;
pub use text_edits as text_edits_below;
pub use wanted::wanted_counts;
