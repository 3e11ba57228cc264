//! A map that keeps its old versions (`shared_map`), of numbers by numbers.
use crate::listed::put_some;
use crate::shared::put_number;
use script_lines::{Fault, number, place};
use shared_map::{Cut, InsertError, SharedMap};
use std::alloc::{AllocError, Global};
use std::cmp::Ordering;
use std::mem;

/// The keys from one on and below another.
#[derive(Drop)]
struct Span {
    from: u64,
    to: u64,
}

impl Cut<u64> for Span {
    ghost use Rattle.test_documents.specs.Span.{to_span, is_cut-to_span};

    ghost place = { λ span. to_span span.from span.to };

    ghost rises = { λ span. is_cut-to_span span.from span.to };

    fn place(&self, key: &u64) -> Ordering {
        if *key < self.from {
            Ordering::Less
        } else if *key < self.to {
            Ordering::Equal
        } else {
            Ordering::Greater
        }
    }
}

type Map = SharedMap<u64, u64>;

/// A map under calls, and another one that was kept of it.
#[derive(Drop)]
pub(crate) struct Maps {
    map: Map,
    kept: Map,
}

fn put_pair(out: &mut String, key: u64, value: u64) -> Result<(), AllocError> {
    write!(out, "{key}={value} ")
}

fn put_pairs(out: &mut String, map: &Map) -> Result<(), AllocError> {
    for (key, value) in map.iter() {
        put_pair(out, *key, *value)?;
    }
    Ok(())
}

fn put_range(out: &mut String, map: &Map, span: &Span) -> Result<(), AllocError> {
    for (key, value) in map.range(span) {
        put_pair(out, *key, *value)?;
    }
    Ok(())
}

/// Writes the pair, or `none`.
fn put_found(out: &mut String, found: Option<(&u64, &u64)>) -> Result<(), AllocError> {
    match found {
        Some((key, value)) => put_pair(out, *key, *value),
        None => out.push_str("none"),
    }
}

impl Maps {
    pub(crate) fn new() -> Maps {
        Maps {
            map: SharedMap::new(),
            kept: SharedMap::new(),
        }
    }

    pub(crate) fn answer(
        &mut self,
        alloc: Global,
        words: &[&str],
        out: &mut String,
    ) -> Result<(), Fault> {
        match words {
            [verb] => self.answer_whole(alloc, *verb, out),
            [verb, key] => self.answer_key(alloc, *verb, *key, out),
            [verb, one, other] => {
                let (one, other) = (number(*one)?, number(*other)?);
                match *verb {
                    "set" => Ok(self.map.set(alloc, one, other)?),
                    "insert" => self.insert(alloc, one, other, out),
                    verb => self.answer_span(
                        verb,
                        &Span {
                            from: one,
                            to: other,
                        },
                        out,
                    ),
                }
            }
            _ => Err(Fault::Line),
        }
    }

    fn answer_whole(&mut self, alloc: Global, verb: &str, out: &mut String) -> Result<(), Fault> {
        match verb {
            "list" => Ok(put_pairs(out, &self.map)?),
            "list-kept" => Ok(put_pairs(out, &self.kept)?),
            "len" => Ok(write!(out, "{}", self.map.len())?),
            "is-empty" => Ok(write!(out, "{}", self.map.is_empty())?),
            "keep" => self.keep(),
            "clear" => self.set_map(SharedMap::new()),
            "unite" => self.unite(alloc),
            _ => Err(Fault::Line),
        }
    }

    fn answer_key(
        &mut self,
        alloc: Global,
        verb: &str,
        word: &str,
        out: &mut String,
    ) -> Result<(), Fault> {
        match verb {
            "at" => Ok(put_found(out, self.map.at(place(word)?))?),
            "get" => Ok(put_some(out, self.map.get(&number(word)?).copied())?),
            "remove" => {
                let had = self.map.remove(alloc, &number(word)?)?;
                Ok(write!(out, "{had}")?)
            }
            _ => Err(Fault::Line),
        }
    }

    fn answer_span(&self, verb: &str, span: &Span, out: &mut String) -> Result<(), Fault> {
        match verb {
            "range" => Ok(put_range(out, &self.map, span)?),
            "place-in" => Ok(put_number(out, self.map.place_in(span))?),
            "first-in" => Ok(put_found(out, self.map.first_in(span))?),
            _ => Err(Fault::Line),
        }
    }

    /// Whether the pair goes in; a key that is taken keeps its value.
    fn insert(
        &mut self,
        alloc: Global,
        key: u64,
        value: u64,
        out: &mut String,
    ) -> Result<(), Fault> {
        match self.map.insert(alloc, key, value) {
            Ok(()) => Ok(out.push_str("put")?),
            Err(InsertError::Taken) => Ok(out.push_str("taken")?),
            Err(InsertError::NoMemory) => Err(Fault::NoMemory),
        }
    }

    fn set_map(&mut self, map: Map) -> Result<(), Fault> {
        drop(mem::replace(&mut self.map, map));
        Ok(())
    }

    fn keep(&mut self) -> Result<(), Fault> {
        let copy = self.map.copy()?;
        drop(mem::replace(&mut self.kept, copy));
        Ok(())
    }

    /// The kept map, and the pairs of the other whose keys it doesn't have.
    fn unite(&mut self, alloc: Global) -> Result<(), Fault> {
        let union = self.kept.union(alloc, &self.map)?;
        self.set_map(union)
    }
}
