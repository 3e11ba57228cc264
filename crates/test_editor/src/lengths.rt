//! A language whose states are lengths (`language`).
use crate::asking::named;
use crate::sharing::shared;
use doc_nodes::{Aliases, NodeAliases};
use language::{Answer, Imports, Language, Made};
use pide_base::{Never, NodeName, Stop};
use report_markup::Report;
use script_lines::Fault;
use sqlite_items::Items;
use std::alloc::{AllocError, Global};

/// A node begins with the number of its imports, and a command leaves the length of its source.
struct Lengths;

impl Language for Lengths {
    ghost use Rattle.test_editor.specs.Lengths.{lengths, tidy};

    type State = usize;

    ghost lang = { lengths };

    ghost questions = { record { step = λ source blob state. 0; fork = λ source state. 0 } };

    ghost tidy = { tidy };

    fn start(
        &self,
        _alloc: Global,
        _node: &NodeName,
        imports: &Imports<usize>,
        _aliases: &NodeAliases,
    ) -> Result<usize, AllocError> {
        match imports {
            Imports::Ordered(imports) => Ok(imports.len()),
            Imports::Bad(_) => Ok(0),
        }
    }

    fn step<P: Stop>(
        &self,
        alloc: Global,
        source: &[char],
        _blob: Option<&[char]>,
        _state: &usize,
        _stop: &mut P,
    ) -> Answer<Made<usize>> {
        Answer::Given(Made {
            state: source.len(),
            reports: Items::new(alloc),
            forks: false,
        })
    }

    fn fork<P: Stop>(
        &self,
        alloc: Global,
        _source: &[char],
        _state: &usize,
        _stop: &mut P,
    ) -> Answer<Items<Report>> {
        Answer::Given(Items::new(alloc))
    }

    fn print(
        &self,
        alloc: Global,
        _source: &[char],
        _state: &usize,
    ) -> Result<Items<Report>, AllocError> {
        Ok(Items::new(alloc))
    }
}

/// The beginning of the node `A`, which has no imports and no aliases.
fn begun<L: Language>(lang: &L, alloc: Global) -> Result<L::State, Fault> {
    let node = named(alloc, "A")?;
    let aliases = NodeAliases {
        pairs: shared(alloc, Aliases::new(alloc))?,
        bad: None,
    };
    let imports = Imports::Ordered(Items::new(alloc));
    Ok(lang.start(alloc, &node, &imports, &aliases)?)
}

/// The state behind a command of this source, in a node without imports.
fn left<L: Language>(lang: &L, alloc: Global, source: &[char]) -> Result<L::State, Fault> {
    let state = begun(lang, alloc)?;
    match lang.step(alloc, source, None, &state, &mut Never::new()) {
        Answer::Given(made) => Ok(made.state),
        Answer::Stopped => Err(Fault::Line),
        Answer::NoMemory => Err(Fault::NoMemory),
    }
}

pub(crate) fn answer(alloc: Global, words: &[&str], out: &mut String) -> Result<(), Fault> {
    let [source] = words else {
        return Err(Fault::Line);
    };
    let source: Vec<char> = source.chars().collect(alloc)?;
    Ok(write!(out, "{}", left(&Lengths, alloc, &source)?)?)
}
