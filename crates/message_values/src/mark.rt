//! Marks that are lent from a text.
ghost use Rattle.std.specs.Prelude.{◌≡◌, ◌<◌, ◌∷◌, [], length, MatchOption};
ghost use Rattle.std.specs.List.{slice_split};
ghost use Rattle.yxml.specs.Reading.{is_y, said, tag_said, marks_in};
ghost use Rattle.message_values.specs.LentMarks.{mark, meant, meant_tag};

use crate::attributes::LentAttributes;
use crate::cut::{first_chunk, first_piece};
use yxml::YxmlFault;

/// A start tag, an end tag, or a text.
#[derive(Drop)]
pub enum LentMark<'a> {
    Opening {
        name: &'a str,
        attributes: LentAttributes<'a>,
    },
    Closing,
    Words(&'a str),
}

/// A mark, and the text that follows it.
#[derive(Drop)]
pub(crate) struct FirstMark<'a> {
    pub(crate) mark: LentMark<'a>,
    pub(crate) rest: &'a str,
}

/// What the tag says: `text` is what follows the byte 6 with which its chunk begins, at `at`.
fn tag_mark(text: &str, at: usize) -> Result<LentMark<'_>, YxmlFault>
    ensures { meant_tag result ≡ tag_said at (slice_split is_y text.now) }
{
    match first_piece(text) {
        None => {
            if text.is_empty() {
                return Ok(LentMark::Closing);
            }
            let attributes = LentAttributes::none();
            Ok(LentMark::Opening {
                name: text,
                attributes,
            })
        }
        Some((name, more)) => {
            if name.is_empty() {
                return Err(YxmlFault::BadTag { at });
            }
            match LentAttributes::of(more) {
                Some(attributes) => Ok(LentMark::Opening { name, attributes }),
                None => Err(YxmlFault::BadAttribute { at }),
            }
        }
    }
}

/// What the chunk at `at` says; an empty chunk says nothing.
pub(crate) fn chunk_mark(chunk: &str, at: usize) -> Result<Option<LentMark<'_>>, YxmlFault>
    ensures { meant result ≡ said at (slice_split is_y chunk.now) }
{
    match first_piece(chunk) {
        None => {
            if chunk.is_empty() {
                return Ok(None);
            }
            Ok(Some(LentMark::Words(chunk)))
        }
        Some((before, tag)) => {
            if !before.is_empty() {
                return Err(YxmlFault::BadText { at });
            }
            match tag_mark(tag, at) {
                Ok(mark) => Ok(Some(mark)),
                Err(fault) => Err(fault),
            }
        }
    }
}

/// The first mark of the text, and what follows it. A chunk at fault says nothing.
pub(crate) fn first_mark(text: &str) -> Option<FirstMark<'_>>
    ensures { MatchOption result (marks_in text.now ≡ [])
        (λ first. (marks_in text.now ≡ mark first.mark ∷ marks_in first.rest.now)
        × (length first.rest.now < length text.now)) }
{
    let mut rest = text;
    while !rest.is_empty() {
        let (chunk, more) = first_chunk(rest);
        if let Ok(Some(mark)) = chunk_mark(chunk, 0) {
            return Some(FirstMark { mark, rest: more });
        }
        rest = more;
    }
    None
}
