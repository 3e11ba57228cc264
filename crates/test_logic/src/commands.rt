//! What is read of commands and of blobs, and what is reported of them.
pub(crate) mod blobs;
pub(crate) mod reports;
pub(crate) mod shapes;
