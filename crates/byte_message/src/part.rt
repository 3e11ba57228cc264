//! A message in progress.
ghost use Rattle.std.specs.Prelude.{◌≡◌, ℕ, List, ◌<◌, ◌++◌, length, sum};
ghost use Rattle.byte_message.specs.Heading.{heading};
ghost use Rattle.byte_message.specs.Heading.Heading.{Fit, Unended};

use crate::frame_fault::FrameFault;
use crate::lengths::Lengths;

/// The bytes of a line that hasn't ended.
#[derive(Debug, Drop)]
pub struct Line {
    pub(crate) bytes: Vec<u8>,
    ghost unended: { heading bytes.items ≡ Unended },
}

/// A fit line with its newline, and fewer bytes than its chunks have.
#[derive(Debug, Drop)]
pub struct Chunks {
    pub(crate) line: Vec<u8>,
    pub(crate) lengths: Lengths,
    pub(crate) whole: usize,
    pub(crate) bytes: Vec<u8>,
    ghost headed: { (body : List ℕ) → heading (line.items ++ body) ≡ Fit lengths body },
    ghost total: { whole ≡ sum lengths },
    ghost short: { length bytes.items < whole },
}

/// What a decoder keeps of a message that isn't whole.
#[derive(Debug, Drop)]
pub enum Part {
    Line(Line),
    Chunks(Chunks),
    Bad(FrameFault),
}

impl Part {
    ghost use Rattle.byte_message.specs.Parts.{fault_of};

    /// The judged fault.
    pub(crate) fn fault(&self) -> Option<FrameFault>
        ensures { result ≡ fault_of self.now }
    {
        match self {
            Part::Line(_) => None,
            Part::Chunks(_) => None,
            Part::Bad(fault) => Some(*fault),
        }
    }
}
