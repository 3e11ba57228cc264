//! Formulas, proofs and commands under scripts of calls, which it reads from its standard input:
//! how formulas are read, printed and the same, what each rule of the kernel makes of its premises,
//! which fact a name means, what proofs come to command by command, what proof terms prove, and the
//! shapes and the reports of commands. A line is answered by a line.
#![tactic(auto)]

mod commands;
mod logic;
mod proofs;
mod shared;
mod subjects;

use crate::proofs::scopes::{Sights, context_of_one};
use crate::subjects::Subjects;
use script_lines::answered;
use std::io;
use theory_ctx::Ctx;

fn main(rt: HostRuntime) -> io::Result<()> {
    let none = Ctx::new();
    let one = context_of_one(rt.alloc())?;
    let sights = Sights {
        none: &none,
        one: &one,
    };
    answer_all(&rt, Subjects::new(rt.alloc(), sights))
}

fn answer_all(rt: &HostRuntime, subjects: Subjects<'_>) -> io::Result<()> {
    let mut subjects = subjects;
    let done = answer_each(rt, &mut subjects);
    drop(subjects);
    done
}

fn answer_each(rt: &HostRuntime, subjects: &mut Subjects<'_>) -> io::Result<()> {
    for line in rt.lines(rt.alloc()) {
        answer(rt, subjects, line?.as_str())?;
    }
    Ok(())
}

fn answer(rt: &HostRuntime, subjects: &mut Subjects<'_>, line: &str) -> io::Result<()> {
    let answer = answered(rt.alloc(), subjects, line)?;
    println!(rt; "{answer}")
}
