//! Why commands are refused.
ghost use Rattle.std.specs.Prelude.{◌++◌, ◌≡◌, IfOk, decimal, string_bytes};
ghost use Rattle.isar_rules.specs.Errors.{formula_in};
ghost use Rattle.command_steps.specs.Tries.{Tries, Refuses};

use crate::halt::Halt;
use crate::texts::ascii;
use itoa::Buffer;
use nj_formula::Formula;
use nj_syntax::{FormulaFault, one_answer, parse};
use std::alloc::{AllocError, Global};

/// A refusal by these words.
pub fn refusal(alloc: Global, words: &str) -> Halt
    ensures { Refuses words.now result }
{
    match String::from_str(alloc, words) {
        Ok(text) => Halt::Refused(text),
        Err(_) => Halt::NoMemory,
    }
}

/// Words and a number behind them.
fn numbered(alloc: Global, words: &str, number: usize) -> Result<String, AllocError>
    ensures { IfOk result (λ text. string_bytes text ≡ words.now ++ decimal number) }
{
    let mut buffer = Buffer::new();
    let mut text = String::from_str(alloc, words)?;
    text.push_str(buffer.format(number))?;
    Ok(text)
}

/// A refusal by these words and a number.
pub fn numbered_refusal(alloc: Global, words: &str, number: usize) -> Halt
    ensures { Refuses (words.now ++ decimal number) result }
{
    match numbered(alloc, words, number) {
        Ok(text) => Halt::Refused(text),
        Err(_) => Halt::NoMemory,
    }
}

/// Words and a name behind them.
fn named(alloc: Global, words: &str, name: &[char]) -> Result<String, AllocError>
    ensures { IfOk result (λ text. string_bytes text ≡ words.now ++ name.now) }
{
    let mut text = String::from_str(alloc, words)?;
    let name = ascii(alloc, name)?;
    text.push_str(name.as_str())?;
    Ok(text)
}

/// A refusal by these words and a name.
pub fn named_refusal(alloc: Global, words: &str, name: &[char]) -> Halt
    ensures { Refuses (words.now ++ name.now) result }
{
    match named(alloc, words, name) {
        Ok(text) => Halt::Refused(text),
        Err(_) => Halt::NoMemory,
    }
}

/// The formula that the content of a quoted text is, or its fault by the place in the content.
pub fn formula_in(alloc: Global, content: &[char]) -> Result<Formula, Halt>
    ensures { Tries (formula_in content.now) result }
{
    one_answer();
    match parse(alloc, content) {
        Ok(formula) => Ok(formula),
        Err(FormulaFault::At { pos, .. }) => Err(numbered_refusal(alloc, "bad formula at ", pos)),
        Err(FormulaFault::TooDeep) => Err(refusal(alloc, "formula too deep")),
        Err(FormulaFault::NoMemory) => Err(Halt::NoMemory),
    }
}
