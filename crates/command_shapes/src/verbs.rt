//! Which command a word is.
ghost use Rattle.std.specs.Prelude.{◌≡◌};
ghost use Rattle.doc_nodes.specs.Names.{equal};
ghost use Rattle.isar_rules.specs.Verbs.{verb_of};
ghost use Rattle.command_shapes.specs.Commands.{proof_verb_of};

use isar_rules::Verb;
use std::cmp::Ordering;

/// Whether the word is this name.
fn is(word: &[char], name: &[char]) -> bool
    ensures { result ≡ equal name.now word.now }
{
    if name.len() != word.len() {
        return false;
    }
    match name.cmp(word) {
        Ordering::Equal => true,
        Ordering::Less | Ordering::Greater => false,
    }
}

/// The command that a word is.
pub(crate) fn verb_of(word: &[char]) -> Option<Verb>
    ensures { result ≡ verb_of word.now }
{
    if is(word, &['t', 'h', 'e', 'o', 'r', 'y']) {
        Some(Verb::Theory)
    } else if is(word, &['e', 'n', 'd']) {
        Some(Verb::End)
    } else if is(word, &['a', 'x', 'i', 'o', 'm']) {
        Some(Verb::Axiom)
    } else if is(word, &['l', 'e', 'm', 'm', 'a']) {
        Some(Verb::Lemma)
    } else if is(word, &['l', 'o', 'a', 'd']) {
        Some(Verb::Load)
    } else {
        proof_verb_of(word)
    }
}

/// The command of proofs that a word is.
fn proof_verb_of(word: &[char]) -> Option<Verb>
    ensures { result ≡ proof_verb_of word.now }
{
    if is(word, &['p', 'r', 'o', 'o', 'f']) {
        Some(Verb::Proof)
    } else if is(word, &['f', 'i', 'x']) {
        Some(Verb::Fix)
    } else if is(word, &['a', 's', 's', 'u', 'm', 'e']) {
        Some(Verb::Assume)
    } else if is(word, &['h', 'a', 'v', 'e']) {
        Some(Verb::Have)
    } else if is(word, &['s', 'h', 'o', 'w']) {
        Some(Verb::Show)
    } else if is(word, &['n', 'e', 'x', 't']) {
        Some(Verb::Next)
    } else if is(word, &['q', 'e', 'd']) {
        Some(Verb::Qed)
    } else if is(word, &['b', 'y']) {
        Some(Verb::By)
    } else {
        None
    }
}
