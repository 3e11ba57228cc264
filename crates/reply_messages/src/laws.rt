//! Laws over the definitions, as contracts of functions that do nothing.
ghost use Rattle.std.specs.Prelude.{◌≡◌, List, ℕ, Option, Some};
ghost use Rattle.reply_messages.specs.declared.told.Told.{Told};
ghost use Rattle.reply_messages.specs.Replies.{reply_chunks};
ghost use Rattle.reply_messages.specs.FoundReplies.{IsReply, FindsReply};

/// Chunks are those of one reply at most. So a reply that is written is read as just what was told,
/// and the one that is read is written as just these chunks.
pub fn what_is_written_is_read_back()
    ensures one { (told other : Told) → IsReply told → IsReply other
        → reply_chunks told ≡ reply_chunks other → told ≡ other }
    ensures back { (told : Told) (found : Option Told) → IsReply told
        → FindsReply (reply_chunks told) found → found ≡ Some told }
    ensures again { (chunks : List (List ℕ)) (told : Told)
        → FindsReply chunks (Some told) → reply_chunks told ≡ chunks }
{}
