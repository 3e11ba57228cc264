//! What holds of the lines of texts.

ghost use Rattle.text_check.specs.Worked.{SmallTheories, SmallFacts, SmallLines};

/// The markup of small texts and its lines, computed.
pub fn worked_examples()
    ensures small_theories { SmallTheories }
    ensures small_facts { SmallFacts }
    ensures small_lines { SmallLines }
{}
