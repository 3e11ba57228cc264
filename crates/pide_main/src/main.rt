//! The program `pide`: standard input and output, handed to the one call.
#![tactic(auto)]

use pide_base::Status;
use pide_io::{NoGate, StdSink, StdSource};
use pide_program::pide;
use reply_outbox::Unkept;
use std::env;
use std::process::ExitCode;
use std::sync::Wait;
use std::thread::Threads;

fn main(rt: HostRuntime) -> ExitCode {
    let status = match env::args(&rt) {
        Ok(args) => match args.skip(1).collect::<Vec<String>>(rt.alloc()) {
            Ok(args) => run(&rt, &rt, &args),
            Err(_) => Status::NoMemory,
        },
        Err(_) => Status::Usage,
    };
    ExitCode::from(status.exit_number())
}

/// Runs the program on the words after its name.
fn run<R: Threads + Wait + Sync>(rt: &HostRuntime, threads: &R, args: &Vec<String>) -> Status {
    let mut words = Vec::new(rt.alloc());
    for arg in args {
        if words.push(arg.as_str()).is_err() {
            return Status::NoMemory;
        }
    }
    let source = StdSource::new(rt.stdin());
    let sink = StdSink::new(rt.stdout());
    let outcome = pide(
        threads,
        rt.alloc(),
        words.as_slice(),
        source,
        sink,
        &NoGate,
        Unkept::new(),
    );
    let status = outcome.status;
    drop(outcome);
    status
}
