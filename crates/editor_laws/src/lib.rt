//! What an editor knows by messages and replies: that it is what the prover's session has
//! (`mirror_laws`); what holds of all that the command language reports, that it can be told by
//! replies, and that it tells an editor, which sees no states, what that takes for granted
//! (`report_laws`, `editor_facts`); and that an editor can read each reply of a session of this
//! language (`laws`).
//!
//! What an editor knows is that of `mirror_rules`, histories and replies are those of
//! `session_rules`, and which replies can be read is told by `reply_messages`; the laws are this
//! project's own. Names come from identifiers of sources, of headers and of blobs, formulas are
//! printed, and numbers are decimal; so the words of reports are in ASCII, whatever scalars an
//! editor sends. There is no code here. The laws must not know what keeps a history, or threads.
#![tactic(auto)]

mod editor_facts;
mod laws;
mod mirror_laws;
mod report_laws;

pub use editor_facts::{forks_law, placed_law, told_law};
pub use laws::{isar_law, messages_law, readable_law};
pub use mirror_laws::{bytes_law, mirror_law, moves_law};
pub use report_laws::{header_law, plain_law, sheets_law, worked_examples};
