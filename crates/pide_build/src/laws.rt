//! What holds of every build.

ghost use Rattle.std.specs.Prelude.{◌≡◌, ℕ, List};
ghost use Rattle.byte_message.specs.Stream.{Ending, IsReadAs};
ghost use Rattle.pide_build.specs.Runs.{all_replies};

use language::Language;

/// The bytes that are read tell what a build replies, whoever checks the theories.
pub fn replies_law<L: Language>()
    ensures { (bytes : List ℕ) (messages others : List (List (List ℕ))) (ending other : Ending)
        → IsReadAs bytes messages ending → IsReadAs bytes others other
        → all_replies L.lang others ≡ all_replies L.lang messages }
{}
