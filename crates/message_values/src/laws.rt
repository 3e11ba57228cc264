//! Laws over the definitions, as contracts of functions that do nothing.
ghost use Rattle.std.specs.Prelude.{◌≡◌, ◌↔◌, ℕ, List, Some, Ok};
ghost use Rattle.message_values.specs.declared.editor_message.EditorMessage.{EditorMessage};
ghost use Rattle.message_values.specs.declared.mode.Mode.{Mode};
ghost use Rattle.message_values.specs.Asked.{asked};
ghost use Rattle.message_values.specs.Fits.{Fits};
ghost use Rattle.message_values.specs.Functions.{word, function_named};
ghost use Rattle.message_values.specs.Spelled.{IsSpelled, function_of};

use yxml::each_text_has_one_answer;

/// A message is asked just where the chunks spell it, its function is one of the mode's, and what
/// it names may be named. So chunks ask one message at most.
pub fn a_message_is_asked_where_it_is_spelled()
    ensures { (mode : Mode) (chunks : List (List ℕ)) (message : EditorMessage)
        → (asked mode chunks ≡ Ok message)
        ↔ (Fits message × IsSpelled message chunks
        × (function_named mode (word (function_of message)) ≡ Some (function_of message))) }
{
    each_text_has_one_answer();
}
