//! Why an edit changes nothing.
ghost use Rattle.std.specs.Prelude.{◌≡◌};

use std::alloc::AllocError;

/// Why an edit was not made. Places and lengths count scalars of the text.
#[derive(Clone, Copy, Debug, PartialEq, Eq)]
pub enum EditFault {
    /// An insert's start, or a remove's end, is above the text's length: the edit's start and the
    /// text's length.
    OutOfRange { start: usize, len: usize },
    /// The text does not have at a remove what it removes: the first place that differs.
    Differs { at: usize },
    /// Memory ran out.
    NoMemory,
}

impl From<AllocError> for EditFault {
    ghost use Rattle.text_edits.specs.declared.fault.EditFault.{EditFault};

    ghost from_gives = { λ _ fault. fault ≡ EditFault.NoMemory };

    fn from(_: AllocError) -> EditFault {
        EditFault::NoMemory
    }
}
