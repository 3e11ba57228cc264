//! Exchanges with the program over memory: lines tell what is sent, and lines answer how it ends and
//! what is written. They are examples for other implementations too: `docs/FORMATS.md` tells the
//! form.
#![tactic(auto)]

mod answers;
mod bytes;
mod exchange;
mod gates;
mod history;
mod lines;
mod messages;
mod removal;
mod replies;
mod runs;
mod slow_sink;

use exchange::Exchange;
use lines::{answer_line, answered};
use std::io;

fn main(rt: HostRuntime) -> io::Result<()> {
    let mut exchange = Exchange::new(rt.alloc());
    for line in rt.lines(rt.alloc()) {
        let answer = answer_line(&rt, rt.alloc(), &mut exchange, line?.as_str())?;
        print!(rt; "{answer}")?;
    }
    let answer = answered(&rt, rt.alloc(), &exchange)?;
    print!(rt; "{answer}")
}
