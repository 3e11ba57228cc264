//! What the words ask for.

/// What the words ask for. Each number is written in decimal as it is printed: with no plus before
/// it, and no zero before other digits.
#[derive(Clone, Copy, Debug, PartialEq, Eq)]
pub enum Request {
    /// `serve`, perhaps with `--workers` and a number from 0 to 16: messages of an editor are
    /// answered, by so many workers beside the reader; none where the option isn't given.
    Serve { workers: u32 },
    /// `replay`: messages are answered that tell the workers each of their steps.
    Replay,
    /// `mirror`: messages are answered on one thread, and what they ask of versions is told by the
    /// replies alone, as an editor may.
    Mirror,
    /// `check`: one text is checked.
    Check,
    /// `build`, perhaps with `--workers`, as above: texts are checked as nodes that may import one
    /// another.
    Build { workers: u32 },
    /// `gen` with a number from 1 to 1,000, perhaps with `--workers`, as above: a document of so
    /// many nodes is made and checked.
    Gen { nodes: u32, workers: u32 },
}
