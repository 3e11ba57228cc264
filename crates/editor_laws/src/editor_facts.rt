//! The laws.
ghost use Rattle.std.specs.Prelude.{◌≡◌, ◌≢◌, ℕ, List, [], Option, Some};
ghost use Rattle.std.specs.List.{AllByRecursion};
ghost use Rattle.doc_nodes.specs.Needs.{source_tokens};
ghost use Rattle.mirror_rules.specs.Forking.{may_fork, forks_by};
ghost use Rattle.symbol_markup.specs.Places.{StandsOnSymbols};
ghost use Rattle.language.specs.Laws.{reports_of};
ghost use Rattle.isar_rules.specs.declared.state.State.{State};
ghost use Rattle.isar_rules.specs.Steps.{aliases_at, step};
ghost use Rattle.isar_rules.specs.Isar.{isar};
ghost use Rattle.editor_laws.specs.Placed.{IsPlaced};
ghost use Rattle.mirror_rules.specs.Telling.{IsTold};

use isar_rules::refused_law;
use outer_syntax::symbol_law;
use symbol_markup::places_in_symbols;

/// A command forks just where its source says `by`, under the aliases in force, and its evaluation
/// reports no error.
pub fn forks_law()
    ensures { (source : List ℕ) (blob : Option (List ℕ)) (before : State)
        → (step source blob before).forks
        ≡ forks_by (may_fork (aliases_at before.place before.aliases) source)
        (Some (step source blob before).reports) }
{
    refused_law();
}

/// What is reported of a command, by its evaluation, its fork and its print, stands on one of the
/// proper tokens of its source, or on all of it. So no range is empty where the source isn't, and
/// no symbol has an end of it inside.
pub fn placed_law()
    ensures tokens { (source : List ℕ) (blob : Option (List ℕ)) (before : State)
        → AllByRecursion (λ r. IsPlaced source
        (source_tokens (aliases_at before.place before.aliases) source) r.range)
        (reports_of isar source blob before) }
    ensures symbols { (source : List ℕ) (blob : Option (List ℕ)) (before : State)
        → source ≢ [] → AllByRecursion (λ r. StandsOnSymbols source r.range)
        (reports_of isar source blob before) }
{
    symbol_law();
    places_in_symbols();
}

/// The command language tells an editor which commands fork, and where reports stand.
pub fn told_law()
    ensures { IsTold isar }
{
    forks_law();
    placed_law();
}
