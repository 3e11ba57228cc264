//! Replies as lines.
use crate::messages::show_message;
use byte_message::Message;
use pide_base::Status;
use std::alloc::{AllocError, Global};

/// Which replies an answer tells, and in which order.
#[derive(Clone, Copy, Debug, PartialEq, Eq)]
pub(crate) enum Order {
    /// All, as they were written.
    AsWritten,
    /// Reports behind the others, in the order of their lines: workers bring them in any order.
    ReportsLast,
    /// All but reports: how far workers came is left to them.
    NoReports,
    /// None.
    Untold,
}

impl Order {
    /// What is told of a run beside workers that ended so.
    pub(crate) fn beside_workers(status: Status) -> Order {
        match status {
            Status::Done => Order::ReportsLast,
            Status::WriteFault => Order::Untold,
            _ => Order::NoReports,
        }
    }
}

/// The lines of replies.
#[derive(Drop)]
pub(crate) struct Replies {
    order: Order,
    lines: String,
    /// The lines of reports, where these stand apart.
    reports: Vec<String>,
}

impl Replies {
    /// The lines of no reply.
    pub(crate) fn new(alloc: Global, order: Order) -> Replies {
        Replies {
            order,
            lines: String::new(alloc),
            reports: Vec::new(alloc),
        }
    }

    /// Adds the line of a reply.
    pub(crate) fn add(&mut self, alloc: Global, message: &Message) -> Result<(), AllocError> {
        let line = line_of(alloc, message)?;
        if self.order != Order::AsWritten && is_report(message) {
            self.reports.push(line)?;
            return Ok(());
        }
        self.lines.push_str(line.as_str())
    }

    /// Adds the lines to an answer.
    pub(crate) fn put(self, answer: &mut String) -> Result<(), AllocError> {
        let Replies {
            order,
            lines,
            mut reports,
        } = self;
        if order == Order::Untold {
            return Ok(());
        }
        answer.push_str(lines.as_str())?;
        if order == Order::ReportsLast {
            reports.sort_unstable();
            put_all(answer, reports.as_slice())?;
        }
        Ok(())
    }
}

/// The line of a reply.
fn line_of(alloc: Global, message: &Message) -> Result<String, AllocError> {
    let mut line = String::new(alloc);
    line.push_str("< ")?;
    show_message(&mut line, message)?;
    line.push('\n')?;
    Ok(line)
}

/// Whether a worker brings the reply.
fn is_report(message: &Message) -> bool {
    message.count() > 0 && matches!(message.chunk(0), b"report" | b"dropped")
}

fn put_all(answer: &mut String, lines: &[String]) -> Result<(), AllocError> {
    for line in lines {
        answer.push_str(line.as_str())?;
    }
    Ok(())
}
