//! Replies, the byte messages in which they are told, and replies read from these.
//!
//! Assignments, markup and removed versions are those of Wenzel, "Asynchronous User Interaction and
//! Tool Integration in Isabelle/PIDE" (ITP 2014); the replies' names, their chunks and what is told
//! beside them are this project's own. Data is in Isabelle's XML encoding, in YXML. What is told is
//! lent, and written straight into one text. The form in which replies are read is the one in which
//! they are written, and no other spelling of their data; nothing is read into trees: data is taken
//! from the front of its bytes, element by element. The crate must not know what a message asks,
//! nor what a document is.
#![tactic(auto)]

mod chunk;
mod data;
mod element;
mod kind;
mod laws;
mod list;
mod message;
mod nodes;
mod number;
mod numbers;
mod one_report;
mod pair;
mod parts;
mod pieces;
mod read_chunk;
mod reading;
mod refusal;
mod replies;
mod reply;
mod rising;
mod tag;
mod taken;
mod text;
mod told;
mod total;
mod versions;
mod words;
mod writing;

pub use laws::what_is_written_is_read_back;
pub use nodes::{built, markup};
pub use numbers::{cancelled, idle, protocol, refused};
pub use parts::{claimed, dropped, report};
pub use reading::read_reply;
pub use reply::{AssignedNode, AssignedRow, Executions, Reply, Reports};
pub use told::{CommandRow, NodeRows, Told};
pub use versions::{assign, removed, settled};
pub use writing::write;
