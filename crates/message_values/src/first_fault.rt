//! The first fault of a text.
ghost use Rattle.std.specs.Prelude.{◌≡◌, ◌<◌, ◌≤◌, None, Some, MatchResult};
ghost use Rattle.std.specs.List.{slice_split};
ghost use Rattle.yxml.specs.Marks.{open_after};
ghost use Rattle.yxml.specs.Reading.{is_y, said, marks_said, nesting_fault, fault_in};
ghost use Rattle.message_values.specs.LentMarks.{meant};

use crate::cut::first_chunk;
use crate::mark::{LentMark, chunk_mark};
use yxml::{MAX_DEPTH, YxmlFault};

/// How many elements are open behind the chunk at `at`, where so many are open before it.
fn depth_behind(chunk: &str, at: usize, depth: usize) -> Result<usize, YxmlFault>
    requires { depth ≤ 200 }
    ensures small { MatchResult result (λ behind. behind ≤ 200) (λ _. Unit {0}) }
    ensures told { MatchResult result
        (λ behind. (nesting_fault depth at (said at (slice_split is_y chunk.now)) ≡ None)
        × (behind ≡ open_after depth (marks_said (said at (slice_split is_y chunk.now)))))
        (λ f. nesting_fault depth at (said at (slice_split is_y chunk.now)) ≡ Some f) }
{
    let mark = match chunk_mark(chunk, at) {
        Ok(mark) => mark,
        Err(fault) => return Err(fault),
    };
    match mark {
        Some(LentMark::Opening { .. }) if depth < MAX_DEPTH => Ok(depth + 1),
        Some(LentMark::Opening { .. }) => Err(YxmlFault::TooDeep { at }),
        Some(LentMark::Closing) if depth == 0 => Err(YxmlFault::Unbalanced { at }),
        Some(LentMark::Closing) => Ok(depth - 1),
        Some(LentMark::Words(_)) | None => Ok(depth),
    }
}

/// The first fault of the text from the left, if it has one.
pub(crate) fn fault_of(text: &str) -> Option<YxmlFault>
    ensures { result ≡ fault_in text.now }
{
    let mut rest = text;
    let mut at: usize = 0;
    let mut depth: usize = 0;
    while !rest.is_empty() {
        let (chunk, more) = first_chunk(rest);
        match depth_behind(chunk, at, depth) {
            Ok(behind) => depth = behind,
            Err(fault) => return Some(fault),
        }
        at += chunk.len() + 1;
        rest = more;
    }
    if depth == 0 {
        None
    } else {
        Some(YxmlFault::Unbalanced { at: text.len() })
    }
}
