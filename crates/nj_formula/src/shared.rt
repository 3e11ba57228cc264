ghost use Rattle.std.specs.Prelude.{◌≡◌, IfOk};

use std::alloc::{AllocError, Global};
use std::marker::Model;
use std::sync::Arc;

/// A part that several owners have in common. Contracts see it as its value.
#[derive(Debug, Drop)]
pub struct Shared<T> {
    inner: Arc<T>,
}

impl<T> Model for Shared<T> {
    ghost use Rattle.std.specs.Arc.{arc_value};

    ghost Value = { T };

    ghost coded = { T.code };

    ghost view = { λ s. arc_value s.inner };
}

impl<T> Shared<T> {
    /// The value that is shared.
    pub fn get(&self) -> &T
        ensures { result.now ≡ self.now }
    {
        &self.inner
    }
}

impl<T: Drop> Shared<T> {
    /// The value, which copies share from now on. It fails for want of memory.
    pub fn new(alloc: Global, value: T) -> Result<Shared<T>, AllocError>
        ensures { IfOk result (λ s. s ≡ value) }
    {
        let inner = Arc::new(alloc, value).map_err(AllocError::from)?;
        Ok(Shared { inner })
    }

    /// One more owner of the same value, in constant time.
    pub fn copy(&self) -> Result<Shared<T>, AllocError>
        ensures { IfOk result (λ s. s ≡ self.now) }
    {
        let inner = Arc::try_clone(&self.inner)?;
        Ok(Shared { inner })
    }
}
