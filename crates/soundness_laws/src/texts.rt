//! A text that is checked alone.
ghost use Rattle.std.specs.Prelude.{◌≡◌, ℕ, List, []};
ghost use Rattle.isar_rules.specs.Isar.{isar};
ghost use Rattle.isar_rules.specs.Kept.{errors_in};
ghost use Rattle.text_check.specs.OneText.{markup_of};
ghost use Rattle.soundness_laws.specs.Sound.{IsSound, IsTheory};

use crate::theories::facts_law;
use crate::theory_laws::alone_law;

/// Where the markup of a text has no error, all facts of its theory follow by natural deduction from
/// its own axioms. `text_theory_law` says which facts these are: each lemma is among them.
pub fn sound_text_law()
    ensures { (text : List ℕ) → errors_in (markup_of isar text) ≡ [] → IsSound text }
{
    alone_law();
}

/// Where the markup of a text has no error, and the text has a command, it is a theory whose facts
/// are just what it states, each under its name: its axioms, and its lemmas, whose proofs are done
/// but for that of the last one where the text ends within it.
pub fn text_theory_law()
    ensures { (text : List ℕ) → errors_in (markup_of isar text) ≡ [] → IsTheory text }
{
    facts_law();
}
