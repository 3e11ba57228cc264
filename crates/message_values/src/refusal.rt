//! Why a message is refused.
ghost use Rattle.std.specs.Prelude.{◌≡◌};
ghost use Rattle.message_values.specs.Refusals.{refusal_number};

/// Why a message is refused. Nothing is changed then, and the session goes on. The reasons from
/// `UnknownFunction` to `BadData` are told by the message alone, the others by the document.
#[derive(Clone, Copy, Debug, PartialEq, Eq)]
pub enum Refusal {
    /// The name is none of the mode's functions.
    UnknownFunction,
    /// The function takes another number of arguments.
    ArgumentCount,
    /// An argument isn't UTF-8.
    BadUtf8,
    /// An argument that is data has a fault of YXML.
    BadYxml,
    /// An argument has another shape.
    BadData,
    /// An update's version isn't above all that were accepted before.
    VersionNotHigher,
    /// A version that is named isn't live.
    UnknownVersion,
    /// A version that is to be removed is the newest.
    TipVersion,
    /// Two items, or two theories, name one node.
    NodeTwice,
    /// A node that is closed or looked at isn't there.
    UnknownNode,
    /// An insert's start, or a remove's end, is above the text's length.
    EditOutOfRange,
    /// The text at a remove isn't its text.
    RemoveDiffers,
    /// A range has its start above its stop, or its stop above the text's length.
    PerspectiveOutOfRange,
    /// An execution was never made, or is in no live version.
    UnknownExecution,
    /// A limit on nodes, texts, versions or ids would be passed.
    Limit,
    /// The worker that claims holds a part, or nothing is ready; the one that finishes holds none.
    NothingToStep,
    /// A worker of the script holds a part where a version is to settle.
    StepHeld,
    /// The protocol is told after another message.
    ProtocolFixed,
    /// Two changes name one blob.
    BlobTwice,
    /// A blob that is removed isn't there.
    UnknownBlob,
}

impl Refusal {
    /// The number with which the refusal is told.
    pub fn number(self) -> u64
        ensures { result ≡ refusal_number self }
    {
        match self {
            Refusal::UnknownFunction => 1,
            Refusal::ArgumentCount => 2,
            Refusal::BadUtf8 => 3,
            Refusal::BadYxml => 4,
            Refusal::BadData => 5,
            Refusal::VersionNotHigher => 6,
            Refusal::UnknownVersion => 7,
            Refusal::TipVersion => 8,
            Refusal::NodeTwice => 9,
            Refusal::UnknownNode => 10,
            Refusal::EditOutOfRange => 11,
            Refusal::RemoveDiffers => 12,
            Refusal::PerspectiveOutOfRange => 13,
            Refusal::UnknownExecution => 14,
            Refusal::Limit => 15,
            Refusal::NothingToStep => 16,
            Refusal::StepHeld => 17,
            Refusal::ProtocolFixed => 18,
            Refusal::BlobTwice => 19,
            Refusal::UnknownBlob => 20,
        }
    }
}
