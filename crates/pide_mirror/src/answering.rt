//! Which reply answers which message.
ghost use Rattle.std.specs.Prelude.{◌≡◌, Some};
ghost use Rattle.mirror_rules.specs.Answers.{can_answer, version_asked, version_told};
ghost use Rattle.mirror_rules.specs.Unexpected.{differ, names_another};

use crate::note::Read;
use message_values::{EditorMessage, Function};
use pide_base::VersionId;
use reply_messages::Told;

/// Whether the reply is the message's own, or says that it is refused.
pub(crate) fn can_answer(read: &Read, told: &Told) -> bool
    ensures { result ≡ can_answer read.now told.now }
{
    match told {
        Told::Refused { .. } => true,
        Told::Assign { .. } => matches!(read, Ok(EditorMessage::Update { .. })),
        Told::Markup { .. } => matches!(read, Ok(EditorMessage::Snapshot { .. })),
        Told::Cancelled { .. } | Told::Idle { .. } => {
            matches!(read, Ok(EditorMessage::Cancel { .. }))
        }
        Told::Removed { .. } => matches!(read, Ok(EditorMessage::RemoveVersions { .. })),
        Told::Settled { .. } => matches!(read, Ok(EditorMessage::Settle { .. })),
        Told::Protocol { .. } => matches!(read, Ok(EditorMessage::Protocol { .. })),
        Told::Claimed { .. } => matches!(read, Ok(EditorMessage::Claim { .. })),
        Told::Report { .. } | Told::Dropped { .. } | Told::Built { .. } | Told::Total { .. } =>
            false,
    }
}

/// The version that a message is about, where its reply names it again.
fn version_asked(read: &Read) -> Option<VersionId>
    ensures { result ≡ version_asked read.now }
{
    match read {
        Ok(EditorMessage::Update { version, .. })
        | Ok(EditorMessage::Snapshot { version, .. })
        | Ok(EditorMessage::Settle { version }) => Some(*version),
        _ => None,
    }
}

/// The version that an assignment, a snapshot or a settle names.
fn version_told(told: &Told) -> Option<VersionId>
    ensures { result ≡ version_told told.now }
{
    match told {
        Told::Assign { version, .. }
        | Told::Markup { version, .. }
        | Told::Settled { version, .. } => Some(*version),
        _ => None,
    }
}

/// Whether the message and the reply name two versions.
pub(crate) fn names_another(read: &Read, told: &Told) -> bool
    ensures { result ≡ names_another (Some read.now) told.now }
{
    match (version_asked(read), version_told(told)) {
        (Some(version), Some(other)) => version != other,
        _ => false,
    }
}
