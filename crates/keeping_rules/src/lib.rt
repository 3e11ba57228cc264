//! The lists of sessions, and what a session keeps as a value beside its list.
//!
//! A list tells how a session is served, its entries, and between them which replies the writer
//! took and whether it lost the sink; it is read newest item first. The state stands for the list:
//! it has the session after it, the replies that wait, and room for the entries that are owed; each
//! entry leaves a sound one. All of it is this project's own. There is no code here. The laws must
//! not know what keeps a list, buffer, core or jobs, where replies go, or threads.
#![tactic(auto)]

mod laws;
mod list_laws;

pub use laws::{change_laws, free_laws, look_laws, step_laws, update_law, writer_laws};
pub use list_laws::{history_law, sent_law, unheard_law};
pub use session_replies as session_replies_below;
