//! Aliases of commands. Contracts see each as the pair of its name and its target.
ghost use Rattle.std.specs.Prelude.{◌≡◌, ◌==◌, ◌∷◌, ◌++◌, [], length, map, slice_get, option_map, IfOk, OnOk};
ghost use Rattle.std.specs.Option.{option_copied};
ghost use Rattle.shared_map.specs.Pairs.{found};
ghost use Rattle.doc_nodes.specs.Names.{in_order, equal};
ghost use Rattle.doc_nodes.specs.Aliases.{is_target};
ghost use Rattle.doc_nodes.specs.Lent.{lent};

use joined_results::both;
use outer_syntax::is_inner_command;
use sqlite_items::Items;
use std::alloc::{AllocError, Global};
use std::cmp::Ordering;
use std::marker::Model;

/// Whether an alias may stand for this: a command of the language, but `theory` and `end`.
pub fn is_target(word: &[char]) -> bool
    ensures { result ≡ is_target word.now }
{
    is_inner_command(word)
}

/// Whether both are the same name.
pub(crate) fn equal(name: &[char], other: &[char]) -> bool
    ensures { result ≡ equal name.now other.now }
{
    match name.cmp(other) {
        Ordering::Equal => true,
        Ordering::Less | Ordering::Greater => false,
    }
}

/// Aliases, in the order in which they came into force: names, and what each stands for.
#[derive(Debug, Drop)]
pub struct Aliases {
    names: Items<Items<char>>,
    targets: Items<Items<char>>,
}

impl Model for Aliases {
    ghost use Rattle.std.specs.Prelude.{◌≡◌, ℕ, List, length};
    ghost use Rattle.std.specs.List.{zip};

    ghost Value = { List (List ℕ × List ℕ) };

    ghost view = { λ aliases. zip aliases.names aliases.targets };

    ghost invariant = { λ aliases. length aliases.names ≡ length aliases.targets };
}

impl Aliases {
    /// No aliases. It takes no memory.
    pub fn new(alloc: Global) -> Aliases
        ensures { result ≡ [] }
    {
        Aliases {
            names: Items::new(alloc),
            targets: Items::new(alloc),
        }
    }

    /// How many there are.
    pub fn len(&self) -> usize
        ensures { result ≡ length self.now }
    {
        self.names.len()
    }

    /// Whether there are none.
    pub fn is_empty(&self) -> bool
        ensures { result ≡ (length self.now == 0) }
    {
        self.len() == 0
    }

    /// The names, which are commands where these aliases are in force.
    pub fn names(&self) -> &[Items<char>]
        ensures { result.now ≡ map (λ pair. pair.0) self.now }
    {
        self.names.as_slice()
    }

    /// The alias at this place, from 0: its name and its target.
    pub fn at(&self, place: usize) -> Option<(&[char], &[char])>
        ensures { option_map lent result ≡ slice_get self.now place }
    {
        match (self.names.get(place), self.targets.get(place)) {
            (Some(name), Some(target)) => Some((name.as_slice(), target.as_slice())),
            _ => None,
        }
    }

    /// What the alias of this name stands for.
    pub fn target_of(&self, name: &[char]) -> Option<&[char]>
        ensures { option_copied result ≡ found in_order name.now self.now }
    {
        'pairs: for place in 0..self.len() {
            if let Some((other, target)) = self.at(place)
                && equal(other, name)
            {
                return Some(target);
            }
        }
        None
    }

    /// The same with one alias more behind them. For want of memory all are let go.
    pub(crate) fn with(
        self,
        alloc: Global,
        name: &[char],
        target: &[char],
    ) -> Result<Aliases, AllocError>
        ensures { IfOk result (λ more. more ≡ self ++ (name.now, target.now) ∷ []) }
    {
        let Aliases { names, targets } = self;
        let (names, targets) = both(
            with_word(alloc, names, name),
            with_word(alloc, targets, target),
        )?;
        Ok(Aliases { names, targets })
    }
}

/// The same with one word more behind them.
fn with_word(
    alloc: Global,
    words: Items<Items<char>>,
    word: &[char],
) -> Result<Items<Items<char>>, AllocError>
    ensures { IfOk result (λ more. more ≡ words ++ word.now ∷ []) }
{
    let (word, mut words) = both(Items::from_slice(alloc, word), Ok(words))?;
    words.push(word)?;
    Ok(words)
}
