//! A span and its kind.

use pide_base::Range;

/// What a span of a text is. A node's commands are its `Command` and `Malformed` spans.
#[derive(Clone, Copy, Debug, PartialEq, Eq)]
pub enum SpanKind {
    /// From a command token to the last proper token before the next command token.
    Command,
    /// The proper tokens before the first command token, from the first to the last of them.
    Malformed,
    /// A longest run of spaces and comments between, before or after the other spans.
    Ignored,
}

/// A span: its kind, and its scalars in the text.
#[derive(Clone, Copy, Debug, PartialEq, Eq)]
pub struct Span {
    pub kind: SpanKind,
    pub range: Range,
}
