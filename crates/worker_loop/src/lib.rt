//! Workers, and the writer: who works on a locked state in threads of their own.
//!
//! A worker claims the first part that is ready, runs its job without the lock and hands in what
//! the job gave; the writer takes what is to be sent and pushes it without the lock. All of it is
//! this project's own. It must not know what a job computes, what a state is, or what is sent.
#![tactic(auto)]

mod attempt;
mod carry;
mod crew;
mod flag_stop;
mod gathering;
mod helping;
mod jobs;
mod outbox;
mod said;
mod splitting;
mod worker;
mod writer;

pub use crew::run_workers;
pub use flag_stop::FlagStop;
pub use gathering::{gather, gather_idle};
pub use helping::help;
pub use jobs::{Claim, Finish, GiveUp, Ran, Work};
pub use outbox::{Next, Outbox};
pub use said::Said;
pub use splitting::split_workers;
pub use worker::{Shift, Worked, work};
pub use writer::{Written, Wrote, write_out};
