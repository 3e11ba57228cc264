//! The spans of a text: commands, what stands before the first command, and what is ignored (after
//! Isabelle's command spans). It knows the tokens of a text, and of commands nothing but that they
//! are.
#![tactic(auto)]

mod change;
mod cut;
mod edited;
mod law;
mod names;
mod span;
mod text_spans;

pub use cut::spans;
pub use edited::{Reparsed, reparse, reparse_in_place};
pub use law::{kept_tokens, one_list};
pub use span::{Span, SpanKind};
pub use text_spans::Spans;
