//! The five numbers.
ghost use Rattle.std.specs.Prelude.{◌≡◌, ◌++◌, IfOk, OnOk, decimal, string_bytes};
ghost use Rattle.made_document.specs.Summary.{number_line, summary_text};

use itoa::Buffer;
use std::alloc::{AllocError, Global};

/// What is counted of a document: its nodes and their commands, the greatest execution, all
/// reports, and those of errors.
#[derive(Clone, Copy, Debug)]
pub struct Summary {
    pub nodes: u64,
    pub commands: u64,
    pub executions: u64,
    pub reports: u64,
    pub errors: u64,
}

/// Adds a line of a word and a number.
fn put_line(out: &mut String, word: &str, number: u64) -> Result<(), AllocError>
    ensures { OnOk result (string_bytes out.new ≡ string_bytes out.old ++ number_line word.now
        number) }
{
    let mut buffer = Buffer::new();
    out.push_str(word)?;
    out.push_str(" ")?;
    out.push_str(buffer.format(number))?;
    out.push_str("\n")
}

impl Summary {
    /// Its five lines.
    pub fn lines(&self, alloc: Global) -> Result<String, AllocError>
        ensures { IfOk result (λ text. string_bytes text ≡ summary_text self.now) }
    {
        let mut text = String::new(alloc);
        put_line(&mut text, "nodes", self.nodes)?;
        put_line(&mut text, "commands", self.commands)?;
        put_line(&mut text, "executions", self.executions)?;
        put_line(&mut text, "reports", self.reports)?;
        put_line(&mut text, "errors", self.errors)?;
        Ok(text)
    }
}
