//! The editor's buffer: the document as the editor has it, under updates. From below to above: the
//! commands of a node, where they stand in its text, which of them keep the ids that they had, what
//! of them is seen and which blobs they ask for (`entries`); one node, and what an item of an
//! update makes of it (`open_node`); all nodes and blobs under an update's items (`draft`); the
//! buffer.
//!
//! Documents, edits, perspectives and commands that keep their ids while a text is edited are those
//! of Wenzel, "Asynchronous User Interaction and Tool Integration in Isabelle/PIDE" (ITP 2014); the
//! limits, which ids commands keep and the order in which refusals are tried are this project's
//! own. An update is prepared beside the buffer, which stays until it is committed. What an update
//! leaves alone stays in its memory, and an edited text is read again only around each edit. It
//! must not know of executions, versions' ids, languages or replies.
#![tactic(auto)]

mod aliases;
mod asking;
mod blobs;
mod buffer;
mod command_places;
mod cut;
mod cutting;
mod draft;
mod editing;
mod entries;
mod fault;
mod header;
mod headers;
mod limits;
mod named;
mod old;
mod open_node;
mod perspective;
mod runs;
mod seen;
mod source;
mod twice;

pub use blobs::{BlobEdits, BlobNames, Blobs, blob_edits};
pub use buffer::{Buffer, Prepared};
pub use command_places::command_ranges;
pub use draft::{Draft, OpenNodes};
pub use entries::entries_of;
pub use fault::PrepareError;
pub use header::uncut;
pub use named::with_named;
pub use old::OldCommands;
pub use open_node::{OpenNode, same_names};
pub use runs::{KeptRuns, kept_runs};
pub use source::{Source, sources};
pub use twice::names_twice;
