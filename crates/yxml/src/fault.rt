use std::alloc::AllocError;

/// Why a text is no YXML. A place counts bytes: it is where the chunk at fault begins, a chunk
/// being what stands between two bytes 5.
#[derive(Clone, Copy, Debug, PartialEq, Eq)]
pub enum YxmlFault {
    /// A close where no element is open; or, at the text's length, an element that is not closed.
    Unbalanced { at: usize },
    /// An empty name that has attributes.
    BadTag { at: usize },
    /// An attribute without `=`, or with nothing before it.
    BadAttribute { at: usize },
    /// A byte 6 inside a text.
    BadText { at: usize },
    /// An element inside 200 others.
    TooDeep { at: usize },
    /// Memory ran out, which says nothing of the text.
    NoMemory,
}

impl From<AllocError> for YxmlFault {
    ghost use Rattle.yxml.specs.declared.fault.YxmlFault.TheVariants.{NoMemory};
    ghost use Rattle.std.specs.Prelude.{◌≡◌};

    ghost from_gives = { λ _ fault. fault ≡ NoMemory };

    fn from(_refused: AllocError) -> YxmlFault {
        YxmlFault::NoMemory
    }
}
