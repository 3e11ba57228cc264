//! The commands of the language, by their names.

/// A command of the language.
#[derive(Clone, Copy, Debug, PartialEq, Eq)]
pub enum Verb {
    Theory,
    End,
    Axiom,
    Lemma,
    Load,
    Proof,
    Fix,
    Assume,
    Have,
    Show,
    Next,
    Qed,
    By,
}
