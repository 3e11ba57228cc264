//! What has happened to something that replies, and the replies that wait to be sent.
//!
//! What has happened is a list, newest item first, that something adds to: one that keeps its
//! items, or one that keeps their number alone. Code that is generic over the trait has the same
//! contract over both.
//!
//! A list tells the entries and, between them, which replies the writer took and whether it lost
//! the sink; this project's own. Room for what is owed is made before it is owed, so that adding an
//! entry with its reply, sending and losing take no memory. It must not know what an entry is, what
//! replies say, or where they go.
#![tactic(auto)]

mod item;
mod kept;
mod outbox;
mod past;
mod unkept;

pub use item::Item;
pub use kept::Kept;
pub use outbox::{Outbox, Parts};
pub use past::Past;
pub use unkept::Unkept;
