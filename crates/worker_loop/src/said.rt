//! What an entry of a history says to those who work on it.
use pide_base::Part;

/// What an entry says of work and of sending.
#[derive(Clone, Copy, Debug, PartialEq, Eq)]
pub enum Said {
    /// Its caller claimed the part.
    Claimed(Part),
    /// Its caller finished the part.
    Finished(Part),
    /// Its caller dropped the part.
    Dropped(Part),
    /// A piece was handed to the writer.
    Sent,
    /// The writer's sink failed.
    Lost,
    /// No part is to be worked on any more.
    Ended,
    /// Something else.
    Other,
}
