//! Lists of what has happened (`reply_outbox`): the same code over one that keeps its items and over
//! one of which only the length is kept.
use crate::listed::put_numbers;
use reply_outbox::{Item, Kept, Past, Unkept};
use script_lines::{Fault, place};
use std::alloc::{AllocError, Global};

/// Adds entries with the numbers below the limit, one after the other.
fn add_below<H: Past<(), usize>>(past: &mut H, limit: usize) -> Result<(), AllocError> {
    for number in 0..limit {
        past.reserve(1)?;
        past.add(Item::Made(number));
    }
    Ok(())
}

/// The numbers of the entries, in order.
fn numbers_of(alloc: Global, items: &[Item<(), usize>]) -> Result<Vec<usize>, AllocError> {
    let mut numbers = Vec::new(alloc);
    for item in items {
        if let Item::Made(number) = item {
            numbers.push(*number)?;
        }
    }
    Ok(numbers)
}

/// The numbers below the limit, as they are kept, and once more as they are handed back.
fn answer_kept(alloc: Global, limit: usize, out: &mut String) -> Result<(), Fault> {
    let mut past = Kept::new(alloc);
    add_below(&mut past, limit)?;
    put_numbers(out, &numbers_of(alloc, past.as_slice())?)?;
    out.push_str("| ")?;
    Ok(put_numbers(out, &numbers_of(alloc, &past.into_items())?)?)
}

/// How many items are added below the limit, and how many bytes their list takes up.
fn answer_unkept(limit: usize, out: &mut String) -> Result<(), Fault> {
    let mut past = Unkept::new();
    add_below(&mut past, limit)?;
    let count = past.count();
    let size = size_of::<Unkept<(), usize>>();
    Ok(write!(out, "{count} items, {size} bytes")?)
}

pub(crate) fn answer(alloc: Global, words: &[&str], out: &mut String) -> Result<(), Fault> {
    let [verb, limit] = words else {
        return Err(Fault::Line);
    };
    let limit = place(*limit)?;
    match *verb {
        "kept" => answer_kept(alloc, limit, out),
        "unkept" => answer_unkept(limit, out),
        _ => Err(Fault::Line),
    }
}
