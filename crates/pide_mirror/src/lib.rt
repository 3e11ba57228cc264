//! The editor's mirror: what an editor knows of a document that a prover checks, kept by the
//! messages that it sends and the replies that it hears.
//!
//! The editor's side is after the session and the snapshots of Isabelle/PIDE (Wenzel, ITP 2014).
//! What is known, which replies are unexpected, and what is seen are defined by `mirror_rules`. The
//! crate must not know how a session is served, where bytes go or come from, nor what a language
//! makes of commands.
//!
//! A client's loop, over streams of its own. A message is noted before it goes out, so that its
//! reply can't come first; a piece may hold no whole reply, or several:
//!
//! ```text
//! let mut mirror = Mirror::new(Global, Mode::Serve)?;
//! while let Some(message) = client.next_message()? {
//!     mirror.sent(&message)?;
//!     client.send(&message)?;
//!     while mirror.feed(client.hear()?)? == 0 {}
//!     let (version, node, edits) = client.look();
//!     client.show(&mirror.snapshot(Global, version, node, edits)?);
//! }
//! ```
//!
//! What an editor keeps of the versions of a document that a prover checks: their nodes with the
//! aliases in force there, what the commands are assigned, and what parts reported, through reports
//! and updates.
//!
//! Versions share all that they have in common, so that a copy takes constant time, an update costs
//! what it changes, and what is forgotten with a version is what no other has. What a version is to
//! an editor is defined by `mirror_rules`. The crate must not know messages, their order, or the
//! bytes of replies.
#![tactic(auto)]

mod aliases;
mod answering;
mod document;
mod error;
mod going;
mod known;
mod listed_nodes;
mod look_error;
mod looking;
mod making;
mod mirror;
mod note;
mod notes;
mod parts;
mod place;
mod places;
mod renewing;
mod rows;
mod told_part;

pub use aliases::AllAliases;
pub use error::MirrorError;
pub use known::{Known, LiveVersion, Rows, ToldLive, ToldVersion, told_to_all};
pub use look_error::LookError;
pub use making::renewed;
pub use mirror::Mirror;
pub use note::{Note, Read};
pub use parts::NodeParts;
pub use place::{Place, Reports};
pub use places::Places;
pub use renewing::NewRows;
pub use told_part::ToldPart;
