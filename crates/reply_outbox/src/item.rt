//! The items of the list.

/// One item of the list of what has happened. A writer is told by its number.
#[derive(Debug, Drop)]
pub enum Item<O, E> {
    /// It began so. This is the first item, and stands nowhere else.
    Opened(O),
    /// An entry was made.
    Made(E),
    /// The writer took the reply that waited longest, of so many bytes.
    Sent { writer: u32, len: u64 },
    /// The writer lost the sink: nothing is sent any more.
    Lost { writer: u32 },
}
