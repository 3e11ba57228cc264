//! What is told of edits and of spans.
use command_spans::{Span, SpanKind};
use script_lines::Fault;
use std::alloc::{AllocError, Global};
use text_edits::{Edit, EditFault, Text};

/// The edit that is told by what is done, the place, and the text there.
pub(crate) fn edit_of(alloc: Global, way: &str, start: usize, text: &str) -> Result<Edit, Fault> {
    match way {
        "insert" => Ok(insert(start, Text::from_str(alloc, text))?),
        "remove" => Ok(remove(start, Text::from_str(alloc, text))?),
        _ => Err(Fault::Line),
    }
}

fn insert(start: usize, text: Result<Text, AllocError>) -> Result<Edit, AllocError> {
    let text = text?;
    Ok(Edit::Insert { start, text })
}

fn remove(start: usize, text: Result<Text, AllocError>) -> Result<Edit, AllocError> {
    let text = text?;
    Ok(Edit::Remove { start, text })
}

/// Adds why an edit was not made.
pub(crate) fn put_fault(out: &mut String, fault: EditFault) -> Result<(), AllocError> {
    match fault {
        EditFault::OutOfRange { start, len } => write!(out, "{start} is out of {len}"),
        EditFault::Differs { at } => write!(out, "{at} differs"),
        EditFault::NoMemory => Err(AllocError),
    }
}

/// A mark for the kind of a span; commands have none.
fn span_mark(kind: SpanKind) -> &'static str {
    match kind {
        SpanKind::Command => "",
        SpanKind::Malformed => "?",
        SpanKind::Ignored => "_",
    }
}

/// Adds the range of each span behind a blank, with a mark before those that are no commands.
pub(crate) fn put_spans(out: &mut String, spans: &[Span]) -> Result<(), AllocError> {
    for span in spans {
        let mark = span_mark(span.kind);
        let start = span.range.start;
        let stop = span.range.stop;
        write!(out, " {mark}{start}-{stop}")?;
    }
    Ok(())
}
