//! Where the commands of a text stand.
ghost use Rattle.std.specs.Prelude.{◌≡◌, IfOk};
ghost use Rattle.buffer_rules.specs.Cuts.{is_command};
ghost use Rattle.editor_buffer.specs.Commands.{ranges_of};

use command_spans::{SpanKind, Spans};
use pide_base::Range;
use std::alloc::{AllocError, Global};

fn is_command(kind: SpanKind) -> bool
    ensures { result ≡ is_command kind }
{
    !matches!(kind, SpanKind::Ignored)
}

/// Where the commands of a text stand, whose spans these are, in their order.
pub fn command_ranges(alloc: Global, spans: &Spans) -> Result<Vec<Range>, AllocError>
    ensures { IfOk result (λ ranges. ranges.items ≡ ranges_of spans.now.spans) }
{
    let mut ranges = Vec::new(alloc);
    let mut rest = spans.spans();
    'spans: while let [span, more @ ..] = rest {
        if is_command(span.kind) {
            ranges.push(span.range)?;
        }
        rest = more;
    }
    Ok(ranges)
}
