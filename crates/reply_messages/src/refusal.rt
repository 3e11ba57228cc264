//! Refusals by their numbers.
ghost use Rattle.std.specs.Prelude.{decimal};
ghost use Rattle.message_values.specs.Refusals.{refusal_number};
ghost use Rattle.reply_messages.specs.Fits.{IsAny};
ghost use Rattle.reply_messages.specs.Found.{Finds};

use crate::number::number_at;
use message_values::Refusal;

/// The refusal of this number.
fn refusal_of(number: u64) -> Option<Refusal>
    ensures { Finds refusal_number IsAny number result }
{
    match number {
        1 => Some(Refusal::UnknownFunction),
        2 => Some(Refusal::ArgumentCount),
        3 => Some(Refusal::BadUtf8),
        4 => Some(Refusal::BadYxml),
        5 => Some(Refusal::BadData),
        6 => Some(Refusal::VersionNotHigher),
        7 => Some(Refusal::UnknownVersion),
        8 => Some(Refusal::TipVersion),
        9 => Some(Refusal::NodeTwice),
        10 => Some(Refusal::UnknownNode),
        11 => Some(Refusal::EditOutOfRange),
        12 => Some(Refusal::RemoveDiffers),
        13 => Some(Refusal::PerspectiveOutOfRange),
        14 => Some(Refusal::UnknownExecution),
        15 => Some(Refusal::Limit),
        16 => Some(Refusal::NothingToStep),
        17 => Some(Refusal::StepHeld),
        18 => Some(Refusal::ProtocolFixed),
        19 => Some(Refusal::BlobTwice),
        20 => Some(Refusal::UnknownBlob),
        _ => None,
    }
}

/// The refusal whose number the chunk tells.
pub(crate) fn refusal_at(chunk: &[u8]) -> Option<Refusal>
    ensures { Finds (λ reason. decimal (refusal_number reason)) IsAny chunk.now result }
{
    refusal_of(number_at(chunk)?)
}
