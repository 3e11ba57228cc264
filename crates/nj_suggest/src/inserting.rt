//! The edit that puts a suggested proof in.
ghost use Rattle.std.specs.Prelude.{◌≡◌, IfOk};
ghost use Rattle.std.specs.Str.{chars};
ghost use Rattle.nj_suggest.specs.Edits.{edit};

use std::alloc::{AllocError, Global};
use text_edits::{Edit, Text};

/// The edit that puts a suggestion's text, with a space before and behind it, in at the place,
/// which counts scalars: at the end of the command that the suggestion was printed of. An error
/// says that there was no memory.
pub fn edit(alloc: Global, stop: usize, text: &str) -> Result<Edit, AllocError>
    ensures { IfOk result (λ e. e ≡ edit stop (chars text.now)) }
{
    let inner = Text::from_str(alloc, text)?;
    let mut scalars = Vec::new(alloc);
    scalars.push(' ')?;
    scalars.extend_from_slice(inner.as_slice())?;
    scalars.push(' ')?;
    let text = Text::from_slice(alloc, scalars.as_slice())?;
    Ok(Edit::Insert { start: stop, text })
}
