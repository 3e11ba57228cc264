//! The kinds of replies.
ghost use Rattle.std.specs.Prelude.{◌≡◌};
ghost use Rattle.reply_messages.specs.Kinds.{word, kinds, kind_named};

/// Which reply it is.
#[derive(Clone, Copy, Debug, PartialEq, Eq)]
pub(crate) enum ReplyKind {
    Assign,
    Markup,
    Cancelled,
    Idle,
    Removed,
    Settled,
    Protocol,
    Refused,
    Claimed,
    Report,
    Dropped,
    Built,
    Total,
}

/// All of them.
const KINDS: [ReplyKind; 13] = [
    ReplyKind::Assign,
    ReplyKind::Markup,
    ReplyKind::Cancelled,
    ReplyKind::Idle,
    ReplyKind::Removed,
    ReplyKind::Settled,
    ReplyKind::Protocol,
    ReplyKind::Refused,
    ReplyKind::Claimed,
    ReplyKind::Report,
    ReplyKind::Dropped,
    ReplyKind::Built,
    ReplyKind::Total,
];

fn kinds() -> &'static [ReplyKind]
    ensures { result.now ≡ kinds }
{
    &KINDS
}

impl ReplyKind {
    /// The kind whose word this is, or None where it is no kind's.
    pub(crate) fn named(name: &[u8]) -> Option<ReplyKind>
        ensures { result ≡ kind_named name.now }
    {
        let kinds = kinds();
        'kinds: for kind in kinds {
            if kind.word().as_bytes() == name {
                return Some(*kind);
            }
        }
        None
    }

    /// The word with which its replies begin.
    fn word(self) -> &'static str
        ensures { result.now ≡ word self }
    {
        match self {
            ReplyKind::Assign => "assign",
            ReplyKind::Markup => "markup",
            ReplyKind::Cancelled => "cancelled",
            ReplyKind::Idle => "idle",
            ReplyKind::Removed => "removed",
            ReplyKind::Settled => "settled",
            ReplyKind::Protocol => "protocol",
            ReplyKind::Refused => "refused",
            ReplyKind::Claimed => "claimed",
            ReplyKind::Report => "report",
            ReplyKind::Dropped => "dropped",
            ReplyKind::Built => "built",
            ReplyKind::Total => "total",
        }
    }
}
