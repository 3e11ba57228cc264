//! The reply to a removal of versions.
ghost use Rattle.std.specs.Prelude.{◌≡◌, ℕ, List, IfOk};
ghost use Rattle.reply_messages.specs.declared.told.Told.TheVariants as tells;
ghost use Rattle.session_replies.specs.Spelling.{reply_spelling};
ghost use Rattle.session_replies.specs.Removed.{IsRisen};

use pide_base::VersionId;
use std::alloc::{AllocError, Global};

/// The reply to a removal of the versions of these ids, which tells them rising, each once.
pub fn removed_versions(alloc: Global, ids: &[VersionId]) -> Result<Vec<u8>, AllocError>
    ensures { (risen : List ℕ) → IsRisen ids.now risen
        → IfOk result (λ bytes. bytes.items ≡ reply_spelling (tells.Removed risen)) }
{
    let risen = rising(alloc, ids)?;
    reply_messages::removed(alloc, &risen)
}

/// The same ids, rising, each once.
fn rising(alloc: Global, ids: &[VersionId]) -> Result<Vec<VersionId>, AllocError>
    ensures { IfOk result (λ risen. IsRisen ids.now risen.items) }
{
    let mut risen = Vec::from_slice(alloc, ids)?;
    risen.sort_unstable();
    risen.dedup();
    Ok(risen)
}
