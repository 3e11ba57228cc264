//! The command language, as jobs ask for it.
ghost use Rattle.isar_rules.specs.Isar.{isar};

use crate::forking::fork;
use crate::printing::print;
use crate::starting::start;
use crate::stepping::step;
use doc_nodes::NodeAliases;
use fork_steps::given;
use isar_rules::State;
use language::{Answer, Imports, Language, Made};
use pide_base::{NodeName, Stop};
use report_markup::Report;
use sqlite_items::Items;
use std::alloc::{AllocError, Global};

/// The command language. What a command makes, how a node begins and what is printed is never
/// stopped; the check of the proof behind a command is.
#[derive(Clone, Copy, Debug)]
pub struct Isar;

impl Language for Isar {
    ghost use Rattle.isar_rules.specs.Isar.{isar};
    ghost use Rattle.isar_rules.proofs.KnownTidy.{isar_tidy};
    ghost use Rattle.fork_steps.specs.Questions.{isar_questions};

    type State = State;

    ghost lang = { isar };

    ghost questions = { isar_questions };

    ghost tidy = { isar_tidy };

    fn start(
        &self,
        alloc: Global,
        node: &NodeName,
        imports: &Imports<State>,
        aliases: &NodeAliases,
    ) -> Result<State, AllocError> {
        start(alloc, node, imports, aliases)
    }

    fn step<P: Stop>(
        &self,
        alloc: Global,
        source: &[char],
        blob: Option<&[char]>,
        state: &State,
        _stop: &mut P,
    ) -> Answer<Made<State>> {
        given(step(alloc, source, blob, state))
    }

    fn fork<P: Stop>(
        &self,
        alloc: Global,
        source: &[char],
        state: &State,
        stop: &mut P,
    ) -> Answer<Items<Report>> {
        fork(alloc, source, state, stop)
    }

    fn print(
        &self,
        alloc: Global,
        source: &[char],
        state: &State,
    ) -> Result<Items<Report>, AllocError> {
        print(alloc, source, state)
    }
}
