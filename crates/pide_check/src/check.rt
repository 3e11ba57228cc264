//! Checking a text from its source to its lines.
ghost use Rattle.std.specs.Prelude.{◌≡◌, ◌≤◌, true, false, Ok, IfOk, OnErr};
ghost use Rattle.pide_base.specs.Faults.{Rose};
ghost use Rattle.pide_base.specs.Moves.{AppendsFront};
ghost use Rattle.std.specs.Io.KnownBytes.{Appends};
ghost use Rattle.text_check.specs.Lines.{lines};
ghost use Rattle.pide_check.specs.Checked.{ChecksWhole, IsChecked};

use crate::input::Input;
use crate::lines::write_lines;
use crate::reading::read_text;
use language::Language;
use pide_base::{Sink, Source, Status};
use std::alloc::{AllocError, Global};
use text_check::markup_of;
use text_edits::Text;

/// Writes the lines of a text. False where the sink failed.
fn write_markup<L: Language, K: Sink>(
    alloc: Global,
    language: &L,
    text: Text,
    sink: &mut K,
) -> Result<bool, AllocError>
    ensures written { result ≡ Ok true
        → Appends (K.contents sink.old) (K.contents sink.new) (lines L.lang text) }
    ensures front { AppendsFront (K.contents sink.old) (K.contents sink.new) (lines L.lang text) }
    ensures cause { result ≡ Ok false → Rose (K.faults sink.old) (K.faults sink.new) }
    ensures steady { K.faults sink.old ≤ K.faults sink.new }
{
    let reports = markup_of(alloc, language, text.as_slice())?;
    write_lines(alloc, sink, &reports)
}

/// Reads the text of the source, checks it from nothing, and writes its lines.
fn checked<L: Language, S: Source, K: Sink>(
    alloc: Global,
    language: &L,
    source: &mut S,
    sink: &mut K,
) -> Result<Status, AllocError>
    ensures ok { IfOk result (λ s. IsChecked L.lang s (S.left source.old) (S.left source.new)
        (K.contents sink.old) (K.contents sink.new)) }
    ensures err { OnErr result (IsChecked L.lang Status.NoMemory (S.left source.old)
        (S.left source.new) (K.contents sink.old) (K.contents sink.new)) }
    ensures read_fault { result ≡ Ok Status.ReadFault
        → Rose (S.faults source.old) (S.faults source.new) }
    ensures write_fault { result ≡ Ok Status.WriteFault
        → Rose (K.faults sink.old) (K.faults sink.new) }
{
    match read_text(alloc, source)? {
        Input::Whole(text) => {
            if write_markup(alloc, language, text, sink)? {
                Ok(Status::Done)
            } else {
                Ok(Status::WriteFault)
            }
        }
        Input::BadText { at } => Ok(Status::BadText { at }),
        Input::LongInput => Ok(Status::LongInput),
        Input::ReadFault => Ok(Status::ReadFault),
    }
}

/// Reads the text of the source, checks it from nothing, and writes its lines: all of them where
/// the answer is `Done`, a front of them where the sink failed or memory ran out, and else nothing.
pub fn check_text<L: Language, S: Source, K: Sink>(
    alloc: Global,
    language: &L,
    source: &mut S,
    sink: &mut K,
) -> Status
    ensures checked { IsChecked L.lang result (S.left source.old) (S.left source.new)
        (K.contents sink.old) (K.contents sink.new) }
    ensures read_fault { result ≡ Status.ReadFault
        → Rose (S.faults source.old) (S.faults source.new) }
    ensures write_fault { result ≡ Status.WriteFault
        → Rose (K.faults sink.old) (K.faults sink.new) }
    ensures complete { ChecksWhole (S.left source.old) (S.faults source.old) (S.faults source.new)
        (K.faults sink.old) (K.faults sink.new) result }
{
    match checked(alloc, language, source, sink) {
        Ok(status) => status,
        Err(_) => Status::NoMemory,
    }
}
