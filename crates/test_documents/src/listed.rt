//! Lists of numbers, written one after the other.
use std::alloc::AllocError;

/// Writes each number with a blank behind it.
pub(crate) fn put_numbers(out: &mut String, numbers: &[usize]) -> Result<(), AllocError> {
    for number in numbers {
        write!(out, "{number} ")?;
    }
    Ok(())
}

/// Writes each with a blank behind it.
pub(crate) fn put_flags(out: &mut String, flags: &[bool]) -> Result<(), AllocError> {
    for flag in flags {
        write!(out, "{flag} ")?;
    }
    Ok(())
}

/// Writes the value, or `none`.
pub(crate) fn put_some(out: &mut String, value: Option<u64>) -> Result<(), AllocError> {
    match value {
        Some(value) => write!(out, "{value}"),
        None => out.push_str("none"),
    }
}
