//! What a task is.
ghost use Rattle.std.specs.Prelude.{◌≡◌, ℕ, ◌<◌, IfOk};

use std::alloc::{AllocError, Global};

/// Tasks, numbered from 0, of which none waits for another.
pub trait Tasks {
    /// What a task makes.
    type Made: Drop + Send;

    /// How many tasks there are.
    ghost count: { Self → ℕ };

    /// What has to hold for a task to be done.
    ghost ready: { Self → Type 0 };

    /// It is what the task of this number makes.
    ghost makes: { Self → ℕ → Self.Made → Type 0 };

    /// How many tasks there are.
    fn count(&self) -> usize
        ensures { result ≡ count self.now };

    /// Does a task, in the hands of the worker of this number. It fails for want of memory.
    fn run(&self, alloc: Global, worker: u32, task: usize) -> Result<Self::Made, AllocError>
        requires ready { ready self.now }
        requires task { task < count self.now }
        ensures { IfOk result (λ made. makes self.now task made) };
}

/// A task that is done.
#[derive(Drop)]
pub(crate) struct Done<M> {
    /// Its number.
    pub task: usize,
    /// What it made.
    pub made: M,
}

/// Does a task, in the hands of the worker of this number.
pub(crate) fn done_by<T: Tasks>(
    alloc: Global,
    tasks: &T,
    worker: u32,
    task: usize,
) -> Result<Done<T::Made>, AllocError>
    requires ready { T.ready tasks.now }
    requires task { task < T.count tasks.now }
    ensures task { IfOk result (λ done. done.task ≡ task) }
    ensures made { IfOk result (λ done. T.makes tasks.now task done.made) }
{
    let made = tasks.run(alloc, worker, task)?;
    Ok(Done { task, made })
}
