//! YXML: which bodies texts spell, and where the others are at fault (`yxml`, `message_values`).
use crate::formats::shown::{nested, yxml_of};
use crate::formats::{bodies, lent};
use crate::shared::{Told, put, put_agreed};
use joined_results::both;
use script_lines::{Answer, Call, Fault, say};
use std::alloc::{AllocError, Global};
use yxml::{Body, YxmlFault, parse_body, write_body};

/// Answers of a text of YXML, which is shown as XML: how its body is written, `again`; its `fault`,
/// as it is read and as it is lent; its `tree`, in words or as it is `debugged`; what is `lent` of
/// it; the `text` that it is; a `string` that is made of it; or whether so many `nested` elements are
/// written again.
pub(crate) fn answer(alloc: Global, out: &mut String, call: &Call<'_>) -> Answer {
    match call.verb {
        "nested" => nested_told(alloc, out, nested(alloc, call.place(0)?)),
        verb => of_text(alloc, out, verb, yxml_of(alloc, call.word(0)?)),
    }
}

/// Answers of a text.
fn of_text(
    alloc: Global,
    out: &mut String,
    verb: &str,
    text: Result<String, AllocError>,
) -> Answer {
    let text = text?;
    let text = text.as_str();
    match verb {
        "again" => put(out, again(alloc, text)),
        "fault" => Ok(put_fault(alloc, out, text)?),
        "tree" => bodies::told(out, body_of(alloc, text)),
        "debugged" => bodies::debugged(out, body_of(alloc, text)),
        "lent" => lent::told(alloc, out, text),
        "text" => lent::text_told(alloc, out, text),
        "string" => Ok(bodies::put_string(alloc, out, text)?),
        _ => Err(Fault::Line),
    }
}

/// The body that the text spells.
fn body_of(alloc: Global, text: &str) -> Result<Body, Fault> {
    match parse_body(alloc, text) {
        Ok(body) => Ok(body),
        Err(YxmlFault::NoMemory) => Err(Fault::NoMemory),
        Err(_) => Err(Fault::Line),
    }
}

/// How the body that the text spells is written.
fn again(alloc: Global, text: &str) -> Told {
    match parse_body(alloc, text) {
        Ok(body) => {
            let written = write_body(alloc, &body);
            drop(body);
            Ok(written?)
        }
        Err(YxmlFault::NoMemory) => Err(Fault::NoMemory),
        Err(_) => Err(Fault::Line),
    }
}

/// The first fault of the text, or `none`.
fn read_fault(alloc: Global, text: &str) -> Result<String, AllocError> {
    match parse_body(alloc, text) {
        Ok(body) => {
            drop(body);
            String::from_str(alloc, "none")
        }
        Err(YxmlFault::NoMemory) => Err(AllocError),
        Err(fault) => format!(in alloc; "{fault:?}"),
    }
}

/// Adds the first fault, as the text is read and as its body is lent.
fn put_fault(alloc: Global, out: &mut String, text: &str) -> Result<(), AllocError> {
    let (read, lent) = both(read_fault(alloc, text), lent::fault(alloc, text))?;
    put_agreed(out, read.as_str(), lent.as_str())
}

/// Answers `written again` where a text is read and written as it was, or its fault.
fn nested_told(alloc: Global, out: &mut String, text: Result<String, AllocError>) -> Answer {
    let text = text?;
    match again(alloc, text.as_str()) {
        Ok(written) if written == text => say(out, "written again"),
        _ => Ok(put_fault(alloc, out, text.as_str())?),
    }
}
