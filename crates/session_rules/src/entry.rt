//! The entries of a history.

use byte_message::Message;
use pide_base::Part;

/// What happened in one step of a session. A history is a list of entries.
#[derive(Debug, Drop)]
pub enum Entry {
    /// A message of the editor's was answered: its chunks.
    Call(Message),
    /// The worker took the part.
    Claimed { who: u32, part: Part },
    /// The worker finished the part that it held.
    Finished { who: u32, part: Part },
    /// The worker let the part go that it held: its execution is cancelled or gone.
    Dropped { who: u32, part: Part },
    /// No message and no claim comes any more.
    Ended,
}
