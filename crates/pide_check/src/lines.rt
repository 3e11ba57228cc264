//! Writing the lines of reports.
ghost use Rattle.std.specs.Prelude.{◌≡◌, ◌≤◌, ◌++◌, ℕ, List, Option, true, false, Ok, string_bytes};
ghost use Rattle.std.specs.List.{flat_map};
ghost use Rattle.std.specs.Io.KnownBytes.{Appends};
ghost use Rattle.pide_base.specs.Faults.{Rose};
ghost use Rattle.pide_base.specs.Moves.{AppendsFront};
ghost use Rattle.text_check.specs.Lines.{report_line};
ghost use Rattle.pide_check.specs.Writing.{AreOnTheirWay};

use pide_base::{Sink, push_whole};
use report_markup::Report;
use std::alloc::{AllocError, Global};
use text_check::write_line;

/// From how many bytes on a piece is pushed.
const PIECE: usize = 65_536;

/// Pushes the text, if it is a piece, and then it is empty. False where the sink failed.
fn push_piece<K: Sink>(sink: &mut K, text: &mut String) -> bool
    ensures pushed { result ≡ true → (first : Option (List ℕ)) (rest all : List ℕ)
        → AreOnTheirWay first (K.contents sink.old) (string_bytes text.old) rest all
        → AreOnTheirWay first (K.contents sink.new) (string_bytes text.new) rest all }
    ensures failed { result ≡ false → (first : Option (List ℕ)) (rest all : List ℕ)
        → AreOnTheirWay first (K.contents sink.old) (string_bytes text.old) rest all
        → AppendsFront first (K.contents sink.new) all }
    ensures cause { result ≡ false → Rose (K.faults sink.old) (K.faults sink.new) }
    ensures steady { K.faults sink.old ≤ K.faults sink.new }
{
    if text.len() < PIECE {
        return true;
    }
    let pushed = push_whole(sink, text.as_bytes());
    text.clear();
    pushed
}

/// Adds the line of a report to the text, of which pieces are pushed. False where the sink failed.
fn add_line<K: Sink>(sink: &mut K, text: &mut String, report: &Report) -> Result<bool, AllocError>
    ensures added { result ≡ Ok true → (first : Option (List ℕ)) (rest all : List ℕ)
        → AreOnTheirWay first (K.contents sink.old) (string_bytes text.old)
        (report_line report.now ++ rest) all
        → AreOnTheirWay first (K.contents sink.new) (string_bytes text.new) rest all }
    ensures front { (first : Option (List ℕ)) (rest all : List ℕ)
        → AreOnTheirWay first (K.contents sink.old) (string_bytes text.old)
        (report_line report.now ++ rest) all → AppendsFront first (K.contents sink.new) all }
    ensures cause { result ≡ Ok false → Rose (K.faults sink.old) (K.faults sink.new) }
    ensures steady { K.faults sink.old ≤ K.faults sink.new }
{
    write_line(text, report)?;
    Ok(push_piece(sink, text))
}

/// Writes the line of each report, in pieces. False where the sink failed: it has then taken a
/// front of them, as for want of memory.
pub(crate) fn write_lines<K: Sink>(
    alloc: Global,
    sink: &mut K,
    reports: &[Report],
) -> Result<bool, AllocError>
    ensures written { result ≡ Ok true → Appends (K.contents sink.old) (K.contents sink.new)
        (flat_map report_line reports.now) }
    ensures front { AppendsFront (K.contents sink.old) (K.contents sink.new)
        (flat_map report_line reports.now) }
    ensures cause { result ≡ Ok false → Rose (K.faults sink.old) (K.faults sink.new) }
    ensures steady { K.faults sink.old ≤ K.faults sink.new }
{
    let mut text = String::new(alloc);
    let mut rest = reports;
    'reports: while let [report, more @ ..] = rest {
        if !add_line(sink, &mut text, report)? {
            return Ok(false);
        }
        rest = more;
    }
    Ok(push_whole(sink, text.as_bytes()))
}
