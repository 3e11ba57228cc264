//! Something taken from the front of a text.

/// What was taken, and how many bytes it took.
#[derive(Debug, Drop)]
pub(crate) struct Taken<T> {
    pub(crate) value: T,
    pub(crate) length: usize,
}
