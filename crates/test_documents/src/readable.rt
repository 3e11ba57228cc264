//! YXML as scripts show it: `<name key=value>` begins an element, and `</>` ends it.
use std::alloc::AllocError;

const X: char = '\u{5}';

const Y: char = '\u{6}';

/// What the marks that were read open.
#[derive(Clone, Copy)]
enum Reading {
    /// A text.
    Text,
    /// A mark that begins or ends an element.
    Begun,
    /// The name of an element, or the element's end.
    Named,
    /// An element's name and properties.
    Element,
}

/// The reading behind a scalar, whose readable form is written.
fn put_scalar(out: &mut String, reading: Reading, scalar: char) -> Result<Reading, AllocError> {
    match (reading, scalar) {
        (Reading::Text, X) => Ok(Reading::Begun),
        (Reading::Begun, Y) => Ok(Reading::Named),
        (Reading::Named, X) => {
            out.push_str("</>")?;
            Ok(Reading::Text)
        }
        (Reading::Element, X) => {
            out.push('>')?;
            Ok(Reading::Text)
        }
        (Reading::Element, Y) => {
            out.push(' ')?;
            Ok(Reading::Element)
        }
        (Reading::Named, first) => {
            out.push('<')?;
            out.push(first)?;
            Ok(Reading::Element)
        }
        (same, other) => {
            out.push(other)?;
            Ok(same)
        }
    }
}

/// Writes some YXML readably.
pub(crate) fn put_readable(out: &mut String, yxml: &str) -> Result<(), AllocError> {
    let mut reading = Reading::Text;
    for scalar in yxml.chars() {
        reading = put_scalar(out, reading, scalar)?;
    }
    Ok(())
}
