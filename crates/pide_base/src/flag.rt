//! A flag by which any thread asks a job to stop.
use std::alloc::{AllocError, Global};
use std::sync::Arc;
use std::sync::atomic::{AtomicBool, Ordering};

/// A flag that is set once, shared by whoever may set it and whoever looks at it. No lock is taken.
/// Nothing is promised of when another thread sees it.
#[derive(Drop)]
pub struct Flag {
    set: Arc<AtomicBool, Global>,
}

impl Flag {
    /// A flag that is not set.
    pub fn new(alloc: Global) -> Result<Flag, AllocError> {
        Ok(Flag {
            set: Arc::new(alloc, AtomicBool::new(false))?,
        })
    }

    /// The same flag, for another holder.
    pub fn share(&self) -> Result<Flag, AllocError> {
        Ok(Flag {
            set: Arc::try_clone(&self.set)?,
        })
    }

    /// Sets it, for good.
    pub fn set(&self) {
        self.set.store(true, Ordering::SeqCst);
    }

    /// Whether it was seen to be set.
    pub fn is_set(&self) -> bool {
        self.set.load(Ordering::SeqCst)
    }
}
