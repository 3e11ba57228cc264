//! Judging a header line.
ghost use Rattle.std.specs.Prelude.{◌≡◌, ℕ, List, [], ◌∷◌, ◌++◌, ◌<◌, ◌≤◌, ◌+◌, ◌^◌, IsTrue, Some, None, take, drop, length, MatchOption};
ghost use Rattle.std.specs.Option.{unwrap_or, IfSome};
ghost use Rattle.byte_message.specs.Limits.{longest_chunk};
ghost use Rattle.byte_message.specs.Line.{judge, judge_numbers, too_long, without_cr, is_digit};
ghost use Rattle.byte_message.specs.Scan.{scan, grown};
ghost use Rattle.byte_message.specs.Counted.{AreCounted};
ghost use Rattle.byte_message.specs.Heading.{line_of, after_line};

use crate::lengths::{Lengths, MOST_CHUNKS};
use crate::line_fault::LineFault;

/// The most bytes before a newline.
pub(crate) const LONGEST_LINE: usize = 200;
/// The most bytes of a chunk, 2^24.
pub(crate) const LONGEST_CHUNK: usize = 16777216;

/// The place of the first newline.
pub(crate) fn newline(bytes: &[u8]) -> Option<usize>
    ensures { MatchOption result (after_line bytes.now ≡ None)
        (λ n. (n < length bytes.now) × (line_of bytes.now ≡ take n bytes.now)
        × (after_line bytes.now ≡ Some (drop (n + 1) bytes.now))) }
{
    match bytes {
        [] => None,
        [first, rest @ ..] => {
            if *first == b'\n' {
                return Some(0);
            }
            match newline(rest) {
                None => None,
                Some(n) => Some(n + 1),
            }
        }
    }
}

/// A line without the CR at its end.
fn without_cr(line: &[u8]) -> &[u8]
    ensures { result.now ≡ without_cr line.now }
{
    let len = line.len();
    if len > 0 && line[len - 1] == b'\r' {
        &line[..len - 1]
    } else {
        line
    }
}

/// A number with one digit more. What is past the longest chunk's length is told as one more.
fn grown(before: Option<usize>, digit: u8) -> usize
    requires digit { IsTrue (is_digit digit) }
    requires small { unwrap_or before 0 ≤ longest_chunk + 1 }
    ensures { result ≡ grown before digit }
{
    let more = before.unwrap_or(0) * 10 + (digit - b'0') as usize;
    more.min(LONGEST_CHUNK + 1)
}

/// Numbers that were read: as many of the first as a message may have chunks, and how many there
/// are.
#[derive(Drop)]
struct FirstNumbers {
    first: Lengths,
    count: usize,
}

impl FirstNumbers {
    /// No numbers.
    fn new() -> FirstNumbers
        ensures { AreCounted result [] }
    {
        FirstNumbers {
            first: Lengths::new(),
            count: 0,
        }
    }

    /// One number more.
    fn push(&mut self, number: usize)
        requires { self.old.count < 2 ^ 63 }
        ensures counted { (all : List ℕ)
            → AreCounted self.old all → AreCounted self.new (all ++ number ∷ []) }
        ensures count { self.new.count ≡ self.old.count + 1 }
    {
        self.first.push(number);
        self.count += 1;
    }
}

/// The decimal numbers that a text is, joined by commas, as far as they matter.
fn numbers(text: &[u8]) -> Option<FirstNumbers>
    requires { length text.now < 2 ^ 63 }
    ensures { MatchOption result (scan None text.now ≡ None)
        (λ found. (all : List ℕ) × (scan None text.now ≡ Some all) × AreCounted found all) }
{
    let mut done = FirstNumbers::new();
    let mut before: Option<usize> = None;
    for b in text {
        if b.is_ascii_digit() {
            before = Some(grown(before, *b));
        } else if *b == b',' && before.is_some() {
            done.push(before.unwrap_or(0));
            before = None;
        } else {
            return None;
        }
    }
    match before {
        None => None,
        Some(n) => {
            done.push(n);
            Some(done)
        }
    }
}

/// The place of the first chunk that is too long.
fn too_long(lengths: &[usize]) -> Option<usize>
    ensures place { result ≡ too_long lengths.now }
    ensures within { IfSome result (λ chunk. chunk < length lengths.now) }
{
    match lengths {
        [] => None,
        [first, rest @ ..] => {
            if *first > LONGEST_CHUNK {
                return Some(0);
            }
            match too_long(rest) {
                None => None,
                Some(chunk) => Some(chunk + 1),
            }
        }
    }
}

/// Judges the numbers of a line.
fn judge_lengths(numbers: FirstNumbers) -> Result<Lengths, LineFault>
    ensures { (all : List ℕ) → AreCounted numbers all → result ≡ judge_numbers (Some all) }
{
    let FirstNumbers { first, count } = numbers;
    if count > MOST_CHUNKS {
        return Err(LineFault::TooMany { count });
    }
    match too_long(first.as_slice()) {
        None => Ok(first),
        Some(chunk) => Err(LineFault::TooLong { chunk }),
    }
}

/// Judges a line: the lengths of its chunks, or the first thing that is wrong with it.
#[tactic(auto, using(crate::proofs::Scanning::scan_judged))]
pub(crate) fn judge(line: &[u8]) -> Result<Lengths, LineFault>
    ensures { result ≡ judge line.now }
{
    if line.len() > LONGEST_LINE {
        return Err(LineFault::BadHeader);
    }
    match numbers(without_cr(line)) {
        None => Err(LineFault::BadHeader),
        Some(numbers) => judge_lengths(numbers),
    }
}
