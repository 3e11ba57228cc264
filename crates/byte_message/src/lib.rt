//! Byte messages: a header line with the lengths of the chunks, and the chunks.
//!
//! The form is that of Isabelle's byte messages (`Pure/PIDE/byte_message.scala`), with limits and a
//! leniency of this project's own. Reading is by pieces, wherever the stream was cut. It must not
//! know what the chunks mean, nor where the bytes come from.
#![tactic(auto)]

mod begin;
mod fault;
mod frame_fault;
mod frames;
mod laws;
mod lengths;
mod line;
mod line_fault;
mod long;
mod message;
mod part;
mod read;
mod state;
mod write;

pub use fault::{FeedError, Truncated};
pub use frame_fault::FrameFault;
pub use frames::Frames;
pub use laws::{any_pieces, longer_streams, one_reading, written_is_read};
pub use long::long_chunk;
pub use message::Message;
pub use write::{append_message, write_message};
