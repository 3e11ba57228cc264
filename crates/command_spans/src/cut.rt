//! How the tokens of a text are cut into spans.

ghost use Rattle.std.specs.Prelude.{◌≡◌, ◌<◌, ◌≤◌, ℕ, true, false, IfOk, length};
ghost use Rattle.std.specs.List.{AllWithin};
ghost use Rattle.outer_syntax.specs.Kinds.{is_command};
ghost use Rattle.command_spans.specs.Spans.{Is, proper_token, RunsTo, IsSpan, AreSpansOf, AreSpans};

use crate::span::{Span, SpanKind};
use outer_syntax::{Kind, Token, is_proper, lex};
use pide_base::Range;
use sqlite_items::Items;
use std::alloc::{AllocError, Global};

fn is_command(kind: Kind) -> bool
    ensures { result ≡ is_command kind }
{
    matches!(kind, Kind::Command)
}

/// How many improper tokens are at the front.
fn ignored_len(tokens: &[Token]) -> usize
    requires some { 0 < length tokens.now }
    requires improper { Is proper_token false tokens.now 0 }
    ensures { IsSpan SpanKind.Ignored tokens.now result }
{
    let mut n = 1;
    while n < tokens.len() && !is_proper(tokens[n].kind) {
        n += 1;
    }
    n
}

/// How many tokens there are up to the last proper one before the next command after the first.
fn run_len(tokens: &[Token]) -> usize
    requires some { 0 < length tokens.now }
    requires proper { Is proper_token true tokens.now 0 }
    ensures { RunsTo tokens.now result }
{
    let mut n = 1;
    let mut seen = 1;
    while seen < tokens.len() && !is_command(tokens[seen].kind) {
        let proper = is_proper(tokens[seen].kind);
        seen += 1;
        if proper {
            n = seen;
        }
    }
    n
}

/// The kind of the first span, and how many tokens it has.
fn first_span(tokens: &[Token]) -> (SpanKind, usize)
    requires { 0 < length tokens.now }
    ensures { IsSpan result.0 tokens.now result.1 }
{
    let first = tokens[0].kind;
    if is_command(first) {
        (SpanKind::Command, run_len(tokens))
    } else if is_proper(first) {
        (SpanKind::Malformed, run_len(tokens))
    } else {
        (SpanKind::Ignored, ignored_len(tokens))
    }
}

/// The spans of the tokens, one after the other.
pub(crate) fn spans_of(alloc: Global, tokens: &[Token]) -> Result<Vec<Span>, AllocError>
    ensures { IfOk result (λ v. AreSpansOf tokens.now v.items) }
{
    let mut spans = Vec::new(alloc);
    let mut at = 0;
    while at < tokens.len() {
        let (kind, n) = first_span(&tokens[at..]);
        let start = tokens[at].range.start;
        let stop = tokens[at + n - 1].range.stop;
        spans.push(Span {
            kind,
            range: Range { start, stop },
        })?;
        at += n;
    }
    Ok(spans)
}

/// The spans of the text, which join to it. The aliases are commands after the header's `begin`.
pub fn spans(alloc: Global, text: &[char], aliases: &[Items<char>]) -> Result<Vec<Span>, AllocError>
    ensures { IfOk result (λ v. AreSpans text.now aliases.now v.items) }
{
    let tokens = lex(alloc, text, aliases)?;
    spans_of(alloc, &tokens)
}
