//! Languages of commands.
ghost use Rattle.std.specs.Prelude.{◌≡◌, IfOk};
ghost use Rattle.std.specs.Option.{option_copied};
ghost use Rattle.language.specs.Answers.{IsAnswer};
ghost use Rattle.language.specs.Lang.{Lang};
ghost use Rattle.language.specs.Laws.{AreTidy};
ghost use Rattle.language.specs.Questions.{Questions, AsksSo};

use crate::answer::Answer;
use crate::made::{Imports, Made};
use doc_nodes::NodeAliases;
use pide_base::{NodeName, Stop};
use report_markup::Report;
use sqlite_items::Items;
use std::alloc::{AllocError, Global};

/// A language of commands. Its answers are functions of what it is given: the same whenever and
/// wherever a command is worked on, and whatever `stop` says.
pub trait Language {
    /// What stands between two commands.
    type State: Drop;

    /// The language as a record of functions.
    ghost lang: { Lang Self.State };

    /// How often it asks whether to stop.
    ghost questions: { Questions Self.State };

    /// The state at the beginning of a node of this name, with what it has from its imports and
    /// with its aliases.
    fn start(
        &self,
        alloc: Global,
        node: &NodeName,
        imports: &Imports<Self::State>,
        aliases: &NodeAliases,
    ) -> Result<Self::State, AllocError>
        ensures { IfOk result (λ state. state ≡ lang.start node.now imports.now aliases.now) };

    /// What the command of this source makes of the state, with the text of the blob that it asks
    /// for, where there is one. Ranges count scalars of the source. Stopped comes only where `stop`
    /// answered yes in this call.
    fn step<P: Stop>(
        &self,
        alloc: Global,
        source: &[char],
        blob: Option<&[char]>,
        state: &Self::State,
        stop: &mut P,
    ) -> Answer<Made<Self::State>>
        ensures answer { IsAnswer result
            (lang.step source.now (option_copied blob.entry) state.now)
            (P.yeses stop.old) (P.yeses stop.new) }
        ensures asks { AsksSo result
            (questions.step source.now (option_copied blob.entry) state.now)
            (P.questions stop.old) (P.questions stop.new) };

    /// What is reported later of a command that forks, by the state before it.
    fn fork<P: Stop>(
        &self,
        alloc: Global,
        source: &[char],
        state: &Self::State,
        stop: &mut P,
    ) -> Answer<Items<Report>>
        ensures answer { IsAnswer result (lang.fork source.now state.now)
            (P.yeses stop.old) (P.yeses stop.new) }
        ensures asks { AsksSo result (questions.fork source.now state.now)
            (P.questions stop.old) (P.questions stop.new) };

    /// What is printed of a command, by the state behind it.
    fn print(
        &self,
        alloc: Global,
        source: &[char],
        state: &Self::State,
    ) -> Result<Items<Report>, AllocError>
        ensures { IfOk result (λ reports. reports ≡ lang.print source.now state.now) };

    /// Reports lie in the source, and any two of a command's are equal in range, nested or
    /// disjoint.
    ghost tidy: { AreTidy lang };
}
