//! Values as bodies, and the places of faults in them (`xml_codec`).
use crate::formats::made_values::{list, option, pair, text, variant};
use script_lines::{Answer, Call, Fault, say};
use sqlite_items::Items;
use std::alloc::{AllocError, Global};
use std::fmt;
use xml_codec::{
    DataFault, get_bool, get_int, get_list, get_option, get_pair, get_string, get_variant,
    is_short, put_bool, put_int, put_string,
};
use yxml::{Body, XmlString};

/// What is read of a body.
type Read<T> = Result<T, DataFault>;

/// Answers what is read of the body of a text, or of a list of texts; what is read again of a value
/// that is written; or whether an integer is `short`.
pub(crate) fn answer(alloc: Global, out: &mut String, call: &Call<'_>) -> Answer {
    match call.verb {
        "int" => put_read(out, get_int(alloc, text(alloc, call.word(0)?)?)),
        "list" => put_fault_of(out, get_list(alloc, text(alloc, call.word(0)?)?)),
        "bool" => fault_alone(out, get_bool(alloc, text(alloc, call.word(0)?)?).is_err()),
        "string" => fault_alone(out, get_string(alloc, text(alloc, call.word(0)?)?).is_err()),
        "short" => short_told(out, call.word(0)?),
        _ => of_list(alloc, out, call),
    }
}

/// Answers what is read of the body of a list of texts.
fn of_list(alloc: Global, out: &mut String, call: &Call<'_>) -> Answer {
    match call.verb {
        "ints" => ints_told(out, ints(alloc, list(alloc, call.words)?)),
        "pair" => put_fault_of(out, get_pair(alloc, list(alloc, call.words)?)),
        "option" => fault_alone(out, get_option(alloc, list(alloc, call.words)?).is_err()),
        "variant" => put_fault_of(out, get_variant(alloc, list(alloc, call.words)?)),
        _ => again(alloc, out, call.verb),
    }
}

/// Answers what is read of a value that is written.
fn again(alloc: Global, out: &mut String, verb: &str) -> Answer {
    match verb {
        "int-again" => put_read(out, get_int(alloc, put_int(alloc, -42)?)),
        "true-again" => put_read(out, get_bool(alloc, put_bool(alloc, true)?)),
        "false-again" => put_read(out, get_bool(alloc, put_bool(alloc, false)?)),
        "string-again" => put_read(out, get_string(alloc, put_string(alloc, "a b")?)),
        "empty-string-again" => put_read(out, get_string(alloc, put_string(alloc, "")?)),
        _ => parts_again(alloc, out, verb),
    }
}

/// Answers what is read of a value of parts that is written.
fn parts_again(alloc: Global, out: &mut String, verb: &str) -> Answer {
    match verb {
        "pair-again" => put_pair_of(alloc, out, get_pair(alloc, pair(alloc)?)),
        "option-again" => put_option_of(alloc, out, get_option(alloc, option(alloc, true)?)),
        "no-option-again" => put_option_of(alloc, out, get_option(alloc, option(alloc, false)?)),
        "variant-again" => put_variant_of(alloc, out, get_variant(alloc, variant(alloc)?)),
        _ => Err(Fault::Line),
    }
}

/// Answers what a fault tells.
fn put_fault(out: &mut String, fault: DataFault) -> Answer {
    match fault {
        DataFault::NoMemory => Err(Fault::NoMemory),
        fault => Ok(write!(out, "{fault:?}")?),
    }
}

/// Answers a value, or its fault.
fn put_read<T: fmt::Display + Drop>(out: &mut String, read: Read<T>) -> Answer {
    match read {
        Ok(value) => Ok(write!(out, "{value}")?),
        Err(fault) => put_fault(out, fault),
    }
}

/// Answers a fault, or `none`.
fn put_fault_of<T: Drop>(out: &mut String, read: Read<T>) -> Answer {
    match read {
        Ok(_) => say(out, "none"),
        Err(fault) => put_fault(out, fault),
    }
}

/// Answers `fault` where there is one, whatever its place.
fn fault_alone(out: &mut String, is_fault: bool) -> Answer {
    say(out, if is_fault { "fault" } else { "none" })
}

/// The integers of a list, or the place of the last one that is none.
fn ints(alloc: Global, body: Body) -> Read<Vec<i64>> {
    let mut bodies = get_list(alloc, body)?;
    let mut numbers = Vec::new(alloc);
    while let Some(item) = bodies.pop() {
        let child = bodies.len() as u64;
        match get_int(alloc, item) {
            Ok(number) => numbers.push(number).map_err(AllocError::from)?,
            Err(fault) => return Err(fault.below(alloc, child)),
        }
    }
    numbers.reverse();
    Ok(numbers)
}

/// Answers the integers of a list, or the fault.
fn ints_told(out: &mut String, read: Read<Vec<i64>>) -> Answer {
    match read {
        Ok(numbers) => Ok(write!(out, "{numbers:?}")?),
        Err(fault) => put_fault(out, fault),
    }
}

/// Answers whether the integer has at most 18 digits.
fn short_told(out: &mut String, number: &str) -> Answer {
    let Ok(number) = number.parse::<i64>() else {
        return Err(Fault::Line);
    };
    let short = is_short(number);
    Ok(write!(out, "{short}")?)
}

/// Answers the integer and the string of a pair.
fn put_pair_of(alloc: Global, out: &mut String, read: Read<(Body, Body)>) -> Answer {
    match read {
        Ok((first, second)) => {
            let number = put_read(out, get_int(alloc, first));
            let text = put_behind(out, get_string(alloc, second));
            number.and(text)
        }
        Err(fault) => put_fault(out, fault),
    }
}

/// Answers a value behind a blank.
fn put_behind<T: fmt::Display + Drop>(out: &mut String, read: Read<T>) -> Answer {
    match read {
        Ok(value) => Ok(write!(out, " {value}")?),
        Err(fault) => put_fault(out, fault),
    }
}

/// Answers the integer of an option, or `none`.
fn put_option_of(alloc: Global, out: &mut String, read: Read<Option<Body>>) -> Answer {
    match read {
        Ok(Some(item)) => put_read(out, get_int(alloc, item)),
        Ok(None) => say(out, "none"),
        Err(fault) => put_fault(out, fault),
    }
}

/// Answers a variant by its number, its values and its argument.
fn put_variant_of(
    alloc: Global,
    out: &mut String,
    read: Read<(u64, Items<XmlString>, Body)>,
) -> Answer {
    match read {
        Ok((index, values, argument)) => {
            let values = put_values(out, index, values.as_slice());
            let argument = put_behind(out, get_int(alloc, argument));
            values.and(argument)
        }
        Err(fault) => put_fault(out, fault),
    }
}

/// Answers the number and the values of a variant.
fn put_values(out: &mut String, index: u64, values: &[XmlString]) -> Answer {
    write!(out, "{index}")?;
    for value in values {
        let value = value.as_str();
        write!(out, " {value}")?;
    }
    Ok(())
}
