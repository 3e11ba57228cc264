ghost use Rattle.std.specs.Prelude.{◌≡◌, ◌≢◌, Some, None, OnOk, IfOk, IfErr, length, List};
ghost use Rattle.std.specs.List.{slice_split};
ghost use Rattle.yxml.specs.declared.tree.Tree.{Tree};
ghost use Rattle.yxml.specs.Normal.{IsNormal};
ghost use Rattle.yxml.specs.Reading.{said, tag_said, is_y, nesting_fault, marks_said, fault_in};
ghost use Rattle.yxml.specs.Spelling.{Spells, ReadsAs};
ghost use Rattle.yxml.specs.Builder.{HasRead};

use crate::builder::Builder;
use crate::cut::{cut_at_x, cut_at_y};
use crate::fault::YxmlFault;
use crate::tag::read_tag;
use crate::tree::Body;
use std::alloc::Global;

/// At most so many elements are nested.
pub const MAX_DEPTH: usize = 200;

/// The body that `text` spells, or the first fault from the left. A text that stands in one piece
/// is copied once.
pub fn parse_body(alloc: Global, text: &str) -> Result<Body, YxmlFault>
    ensures spells { IfOk result (Spells text.now) }
    ensures normal { IfOk result IsNormal }
    ensures fault { IfErr result (λ f. f ≢ YxmlFault.NoMemory → fault_in text.now ≡ Some f) }

    // So nothing but want of memory keeps a spelling from being read, as the one body that it
    // spells.
    ensures exact { (body : List Tree) → Spells text.now body → ReadsAs body result }
{
    read_all(alloc, text)
}

/// The same, where it is not yet told that a body that is spelled is normal, and the only one.
fn read_all(alloc: Global, text: &str) -> Result<Body, YxmlFault>
    ensures spells { IfOk result (Spells text.now) }
    ensures fault { IfErr result (λ f. f ≢ YxmlFault.NoMemory → fault_in text.now ≡ Some f) }
{
    let mut builder = Builder::new(alloc);
    let mut rest = text;
    let mut at = 0;
    while let Some((chunk, more)) = cut_at_x(rest) {
        take_chunk(alloc, &mut builder, chunk, at)?;
        at += chunk.len() + 1;
        rest = more;
    }
    take_chunk(alloc, &mut builder, rest, at)?;
    if builder.depth() != 0 {
        return Err(YxmlFault::Unbalanced { at: text.len() });
    }
    let body = builder.finish(alloc)?;
    Ok(body)
}

/// Reads one chunk, which begins at `at`.
fn take_chunk(alloc: Global, builder: &mut Builder, chunk: &str, at: usize) -> Result<(), YxmlFault>
    ensures taken { OnOk result (HasRead builder.old builder.new
        (marks_said (said at (slice_split is_y chunk.now)))) }
    ensures fine { OnOk result
        (nesting_fault (length builder.old.stack) at (said at (slice_split is_y chunk.now))
        ≡ None) }
    ensures fault { IfErr result (λ f. f ≢ YxmlFault.NoMemory
        → nesting_fault (length builder.old.stack) at (said at (slice_split is_y chunk.now))
        ≡ Some f) }
{
    match cut_at_y(chunk) {
        None => {
            if !chunk.is_empty() {
                builder.add_text(chunk)?;
            }
            Ok(())
        }
        Some((before, tag)) => {
            if !before.is_empty() {
                return Err(YxmlFault::BadText { at });
            }
            take_tag(alloc, builder, tag, at)
        }
    }
}

/// Reads the chunk at `at` that begins with a byte 6: `tag` is what follows that byte.
fn take_tag(alloc: Global, builder: &mut Builder, tag: &str, at: usize) -> Result<(), YxmlFault>
    ensures taken { OnOk result (HasRead builder.old builder.new
        (marks_said (tag_said at (slice_split is_y tag.now)))) }
    ensures fine { OnOk result
        (nesting_fault (length builder.old.stack) at (tag_said at (slice_split is_y tag.now))
        ≡ None) }
    ensures fault { IfErr result (λ f. f ≢ YxmlFault.NoMemory
        → nesting_fault (length builder.old.stack) at (tag_said at (slice_split is_y tag.now))
        ≡ Some f) }
{
    if tag.is_empty() {
        if builder.depth() == 0 {
            return Err(YxmlFault::Unbalanced { at });
        }
        builder.close(alloc)?;
        return Ok(());
    }
    let tag = read_tag(alloc, tag, at)?;
    if builder.depth() >= MAX_DEPTH {
        return Err(YxmlFault::TooDeep { at });
    }
    builder.open(alloc, tag.name, tag.attributes)?;
    Ok(())
}
