//! Replies of a session, from what the prover's side answers to bytes: what an update assigns, what
//! a snapshot shows, what came of parts, and the shorter ones; and the core's jobs with the replies
//! that they bring back.
//!
//! Each call writes one reply; laws say that it is the one that a session's rules ask for, where
//! the prover's side answers as it promises. A job is run far from the session, so whoever runs it
//! writes its reply there too, and taking in what came of it takes no memory. This project's own.
//! The crate must not know what a message is read from, of histories, of who holds which part, of
//! threads, or where bytes go. Nothing of a report is copied.
#![tactic(auto)]

mod assigned;
mod done;
mod edited;
mod job;
mod laws;
mod marked;
mod plain;
mod ran;
mod removed;
mod reported;

pub use assigned::assign;
pub use done::{DoneParts, SessionDone};
pub use edited::{Edited, edited_text};
pub use job::{JobParts, SessionJob};
pub use laws::{
    cancelling_law, removed_law, report_law, settled_law, snapshot_law, worked_examples,
};
pub use marked::markup;
pub use plain::{cancelling, settled};
pub use ran::SessionRan;
pub use removed::removed_versions;
pub use reply_messages::{claimed, dropped, protocol, refused};
pub use reported::report;
