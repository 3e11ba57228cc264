//! Values that one word tells: ids and names.

use crate::number::number_at;
use pide_base::{CommandId, ExecId, NodeName, VersionId};
use std::alloc::{AllocError, Global};

/// A value that one word tells.
pub(crate) trait Word: Drop {
    ghost use Rattle.std.specs.Prelude.{ℕ, List, IfOk};
    ghost use Rattle.reply_messages.specs.Found.{Finds};

    /// The word that tells the value.
    ghost word: { Self → List ℕ };

    /// Which values there are.
    ghost fits: { Self → Type 0 };

    /// The value whose word the bytes are.
    fn told(alloc: Global, bytes: &[u8]) -> Result<Option<Self>, AllocError>
        ensures { IfOk result (λ found. Finds word fits bytes.now found) };
}

impl Word for VersionId {
    ghost use Rattle.std.specs.Prelude.{decimal};
    ghost use Rattle.pide_base.specs.Ids.{IsId};

    ghost word = { decimal };

    ghost fits = { IsId };

    fn told(_alloc: Global, bytes: &[u8]) -> Result<Option<VersionId>, AllocError> {
        match number_at(bytes) {
            Some(number) => Ok(VersionId::new(number)),
            None => Ok(None),
        }
    }
}

impl Word for CommandId {
    ghost use Rattle.std.specs.Prelude.{decimal};
    ghost use Rattle.pide_base.specs.Ids.{IsId};

    ghost word = { decimal };

    ghost fits = { IsId };

    fn told(_alloc: Global, bytes: &[u8]) -> Result<Option<CommandId>, AllocError> {
        match number_at(bytes) {
            Some(number) => Ok(CommandId::new(number)),
            None => Ok(None),
        }
    }
}

impl Word for ExecId {
    ghost use Rattle.std.specs.Prelude.{decimal};
    ghost use Rattle.pide_base.specs.Ids.{IsId};

    ghost word = { decimal };

    ghost fits = { IsId };

    fn told(_alloc: Global, bytes: &[u8]) -> Result<Option<ExecId>, AllocError> {
        match number_at(bytes) {
            Some(number) => Ok(ExecId::new(number)),
            None => Ok(None),
        }
    }
}

impl Word for NodeName {
    ghost use Rattle.reply_messages.specs.Fits.{IsName};

    ghost word = { λ name. name };

    ghost fits = { IsName };

    fn told(alloc: Global, bytes: &[u8]) -> Result<Option<NodeName>, AllocError> {
        let Ok(text) = str::from_utf8(bytes) else {
            return Ok(None);
        };
        let text = String::from_str(alloc, text)?;
        Ok(NodeName::new(text).ok())
    }
}
