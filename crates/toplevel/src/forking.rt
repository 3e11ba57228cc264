//! What is reported of a command that forks.
ghost use Rattle.language.specs.Answers.{IsAnswer};
ghost use Rattle.language.specs.Questions.{AsksSo};
ghost use Rattle.isar_rules.specs.Forks.{fork};
ghost use Rattle.fork_steps.specs.Questions.{fork_questions};

use crate::tokens::{aliases_at, source_tokens};
use doc_nodes::Aliases;
use fork_steps::forked_at;
use isar_rules::State;
use language::Answer;
use pide_base::Stop;
use report_markup::Report;
use sqlite_items::Items;
use std::alloc::Global;

/// What is reported of a command that forks, by the state before it.
pub(crate) fn fork<P: Stop>(
    alloc: Global,
    source: &[char],
    before: &State,
    stop: &mut P,
) -> Answer<Items<Report>>
    ensures answer { IsAnswer result (fork source.now before.now)
        (P.yeses stop.old) (P.yeses stop.new) }
    ensures asks { AsksSo result (fork_questions source.now before.now)
        (P.questions stop.old) (P.questions stop.new) }
{
    let none = Aliases::new(alloc);
    let aliases = aliases_at(&before.place, before.aliases.get(), &none);
    match source_tokens(alloc, source, aliases) {
        Ok(tokens) => forked_at(alloc, source, &tokens, &before.place, stop),
        Err(_) => Answer::NoMemory,
    }
}
