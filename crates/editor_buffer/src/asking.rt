//! The blob that a command asks for.
ghost use Rattle.std.specs.Prelude.{◌≡◌, IsTrue, IfOk};
ghost use Rattle.doc_nodes.specs.Needs.{needs};

use doc_nodes::{Aliases, BlobName, Entry, needs};
use std::alloc::{AllocError, Global};

/// The same name, if there is one.
fn copied(name: &Option<BlobName>) -> Result<Option<BlobName>, AllocError>
    ensures { IfOk result (λ copy. copy ≡ name.now) }
{
    match name {
        Some(name) => Ok(Some(name.clone()?)),
        None => Ok(None),
    }
}

/// The blob that the command of this source asks for. It is not sought where the command had the
/// same source under the same aliases before.
pub(crate) fn asked_by(
    alloc: Global,
    old: &Entry,
    same: bool,
    source: &[char],
    aliases: &Aliases,
) -> Result<Option<BlobName>, AllocError>
    requires { IsTrue same → old.now.needs ≡ needs source.now aliases.now }
    ensures { IfOk result (λ name. name ≡ needs source.now aliases.now) }
{
    if same {
        copied(&old.needs)
    } else {
        needs(alloc, source, aliases)
    }
}
