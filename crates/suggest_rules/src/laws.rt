//! What holds of suggestions.

ghost use Rattle.suggest_rules.specs.Worked.{NextNames, CitedNames, Suggestions};

/// Names and suggestions of small goals, computed.
pub fn worked_suggestions()
    ensures names { NextNames }
    ensures cited { CitedNames }
    ensures suggestions { Suggestions }
{}
