//! Ranges of a text.

/// A range of scalars of a text, counted from 0.
#[derive(Clone, Copy, Debug, PartialEq, Eq, PartialOrd, Ord, Hash)]
pub struct Range {
    /// The first scalar.
    pub start: usize,
    /// The one after the last.
    pub stop: usize,
}
