//! Sources, sinks, gates and stops: exact ones over memory, and thin ones over the real streams.
//!
//! All of it is this project's own. It must not know what the bytes mean.
#![tactic(auto)]

mod hold_gate;
mod mem_sink;
mod mem_source;
mod no_gate;
mod nth_stop;
mod std_sink;
mod std_source;

pub use hold_gate::{HoldGate, LetGo};
pub use mem_sink::MemSink;
pub use mem_source::MemSource;
pub use no_gate::NoGate;
pub use nth_stop::NthStop;
pub use std_sink::StdSink;
pub use std_source::StdSource;
