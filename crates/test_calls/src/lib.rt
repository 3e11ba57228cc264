//! Tests of what no text tells: sessions over the commands' language, call by call, and jobs that are
//! asked to stop; turns at the lock in threads, workers and their writer, the ends over readers and
//! writers, and names and ids as values.
//!
//! It holds tests alone, in a crate of its own so that these layers are checked without them.
#![tactic(auto)]

#[cfg(test)]
mod calls;
#[cfg(test)]
mod ends;
#[cfg(test)]
mod messages;
#[cfg(test)]
mod names;
#[cfg(test)]
mod steps;
#[cfg(test)]
mod stopped;
#[cfg(test)]
mod turns;
#[cfg(test)]
mod workers;
