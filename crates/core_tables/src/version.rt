//! One version. Contracts see it as what it holds.
ghost use Rattle.std.specs.Prelude.{◌≡◌, IfOk, IfErr};

use std::alloc::{AllocError, Global};
use std::marker::Model;
use std::sync::Arc;

/// What a version holds, in memory that all who know the version share. Nothing changes it: it is
/// freed when the last who knows it lets it go.
#[derive(Debug, Drop)]
pub struct Version<V> {
    content: Arc<V>,
}

impl<V> Model for Version<V> {
    ghost use Rattle.std.specs.Arc.{arc_value};

    ghost Value = { V };

    ghost view = { λ version. arc_value version.content };
}

impl<V> Version<V> {
    /// The version that holds this. For want of memory it is handed back.
    pub fn new(alloc: Global, content: V) -> Result<Version<V>, V>
        ensures ok { IfOk result (λ version. version ≡ content) }
        ensures err { IfErr result (λ back. back ≡ content) }
    {
        match Arc::new(alloc, content) {
            Ok(content) => Ok(Version { content }),
            Err(failed) => Err(failed.value),
        }
    }

    /// What it holds.
    pub fn get(&self) -> &V
        ensures { result.now ≡ self.now }
    {
        &self.content
    }

    /// The same version, in the same memory.
    pub fn share(&self) -> Result<Version<V>, AllocError>
        ensures { IfOk result (λ version. version ≡ self.now) }
    {
        Ok(Version {
            content: Arc::try_clone(&self.content)?,
        })
    }
}
