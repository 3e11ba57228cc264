//! What holds of the function and the relation.
ghost use Rattle.std.specs.Prelude.{◌≡◌, ◌↔◌, ℕ, List};
ghost use Rattle.proof_state.specs.declared.levels.Levels.{Levels};
ghost use Rattle.proof_state.specs.Describes.{Describes};
ghost use Rattle.isar_rules.specs.Described.{levels_text};

/// The text of a proof state is what describes it, and nothing else is.
pub fn one_state_text()
    ensures { (levels : Levels) (text : List ℕ)
        → Describes levels text ↔ (text ≡ levels_text levels) }
{}
