//! Values in memory that is shared. Contracts see one as the value.
ghost use Rattle.std.specs.Prelude.{◌≡◌, IfOk, IfErr};

use std::alloc::{AllocError, Global};
use std::marker::Model;
use std::sync::Arc;

/// A value that several versions have in common. Nothing changes it, and it is freed with the last
/// of its owners.
#[derive(Debug, Drop)]
pub struct Shared<T> {
    value: Arc<T>,
}

impl<T> Model for Shared<T> {
    ghost use Rattle.std.specs.Arc.{arc_value};

    ghost Value = { T };

    ghost coded = { T.code };

    ghost view = { λ shared. arc_value shared.value };
}

impl<T> Shared<T> {
    /// The value in memory that can be shared. For want of memory it is handed back.
    pub fn new(alloc: Global, value: T) -> Result<Shared<T>, T>
        ensures ok { IfOk result (λ shared. shared ≡ value) }
        ensures err { IfErr result (λ back. back ≡ value) }
    {
        match Arc::new(alloc, value) {
            Ok(value) => Ok(Shared { value }),
            Err(failed) => Err(failed.value),
        }
    }

    /// The value.
    pub fn get(&self) -> &T
        ensures { result.now ≡ self.now }
    {
        &self.value
    }

    /// The same value, in the same memory: one more owner, in constant time.
    pub fn copy(&self) -> Result<Shared<T>, AllocError>
        ensures { IfOk result (λ shared. shared ≡ self.now) }
    {
        Ok(Shared {
            value: Arc::try_clone(&self.value)?,
        })
    }
}
