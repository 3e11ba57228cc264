//! The fold of aliases, pair by pair.
ghost use Rattle.std.specs.Prelude.{◌≡◌, ℕ, List, map, Some, None, IfOk, if◌then◌else◌};
ghost use Rattle.shared_map.specs.Pairs.{found};
ghost use Rattle.doc_nodes.specs.Names.{in_order, equal};
ghost use Rattle.doc_nodes.specs.Aliases.{no_aliases, left_out, extended_aliases, taken_in, folded};

use crate::alias::{Aliases, equal, is_target};
use crate::word::Word;
use joined_results::each_of_three;
use outer_syntax::KeywordPair;
use shared_map::SharedMap;
use sqlite_items::Items;
use std::alloc::{AllocError, Global};
use std::marker::Model;

/// A fold that goes on. Contracts see the aliases so far, with the first bad one's name.
#[derive(Drop)]
pub(crate) struct Folding<'a> {
    pairs: Aliases,
    /// What each of them stands for, by name.
    targets: SharedMap<Word<'a>, Word<'a>>,
    bad: Option<Items<char>>,
}

impl<'a> Model for Folding<'a> {
    ghost use Rattle.std.specs.Prelude.{◌≡◌, ℕ, List};
    ghost use Rattle.shared_map.specs.Pairs.{found};
    ghost use Rattle.doc_nodes.specs.Names.{in_order};
    ghost use Rattle.doc_nodes.specs.declared.inherited.NodeAliases.{NodeAliases};

    ghost Value = { NodeAliases };

    ghost view = { λ folding. record { pairs = folding.pairs; bad = folding.bad } };

    ghost invariant = { λ folding. (name : List ℕ)
        → found in_order name folding.targets ≡ found in_order name folding.pairs };
}

impl<'a> Folding<'a> {
    pub(crate) fn new(alloc: Global) -> Folding<'a>
        ensures { result ≡ no_aliases }
    {
        Folding {
            pairs: Aliases::new(alloc),
            targets: SharedMap::new(),
            bad: None,
        }
    }

    /// The aliases, and the name of the first bad pair.
    pub(crate) fn into_parts(self) -> (Aliases, Option<Items<char>>)
        ensures aliases { result.0 ≡ self.entry.pairs }
        ensures bad { result.1 ≡ self.entry.bad }
    {
        let Folding {
            pairs,
            targets: _,
            bad,
        } = self;
        (pairs, bad)
    }

    /// A bad pair is left out. For want of memory all is let go, here and below.
    fn left_out(
        self,
        alloc: Global,
        name: &'a [char],
        target: &'a [char],
    ) -> Result<Folding<'a>, AllocError>
        ensures { IfOk result (λ more. more ≡ left_out self.entry (name.now, target.now)) }
    {
        let Folding {
            pairs,
            targets,
            bad,
        } = self;
        let first = match bad {
            Some(bad) => Ok(bad),
            None => Items::from_slice(alloc, name),
        };
        let (pairs, targets, first) = each_of_three(Ok(pairs), Ok(targets), first)?;
        Ok(Folding {
            pairs,
            targets,
            bad: Some(first),
        })
    }

    /// One pair more, whose name is new.
    fn added(
        self,
        alloc: Global,
        name: &'a [char],
        target: &'a [char],
    ) -> Result<Folding<'a>, AllocError>
        requires { found in_order name.now self.pairs ≡ None }
        ensures { IfOk result (λ more. more ≡ extended_aliases self.entry (name.now, target.now)) }
    {
        let Folding {
            pairs,
            targets,
            bad,
        } = self;
        let pairs = pairs.with(alloc, name, target);
        let targets = with_target(alloc, targets, name, target);
        let (pairs, targets, bad) = each_of_three(pairs, targets, Ok(bad))?;
        Ok(Folding {
            pairs,
            targets,
            bad,
        })
    }

    /// One pair more.
    fn taken_in(
        self,
        alloc: Global,
        name: &'a [char],
        target: &'a [char],
    ) -> Result<Folding<'a>, AllocError>
        ensures { IfOk result (λ more. more ≡ taken_in self.entry (name.now, target.now)) }
    {
        if !is_target(target) {
            return self.left_out(alloc, name, target);
        }
        match self.targets.get(&Word::of(name)) {
            None => self.added(alloc, name, target),
            Some(known) if equal(target, known.as_slice()) => Ok(self),
            Some(_) => self.left_out(alloc, name, target),
        }
    }

    /// All these aliases more.
    pub(crate) fn with_all(
        self,
        alloc: Global,
        aliases: &'a Aliases,
    ) -> Result<Folding<'a>, AllocError>
        ensures { IfOk result (λ more. more ≡ folded self.entry aliases.now) }
    {
        let mut folding = self;
        'pairs: for place in 0..aliases.len() {
            if let Some((name, target)) = aliases.at(place) {
                folding = folding.taken_in(alloc, name, target)?;
            }
        }
        Ok(folding)
    }

    /// All these keyword pairs more.
    pub(crate) fn with_own(
        self,
        alloc: Global,
        keywords: &'a [KeywordPair],
    ) -> Result<Folding<'a>, AllocError>
        ensures { IfOk result (λ more. more
            ≡ folded self.entry (map (λ pair. (pair.name, pair.target)) keywords.now)) }
    {
        let mut folding = self;
        'pairs: for pair in keywords {
            folding = folding.taken_in(alloc, pair.name.as_slice(), pair.target.as_slice())?;
        }
        Ok(folding)
    }
}

/// The same with one target more.
fn with_target<'a>(
    alloc: Global,
    mut targets: SharedMap<Word<'a>, Word<'a>>,
    name: &'a [char],
    target: &'a [char],
) -> Result<SharedMap<Word<'a>, Word<'a>>, AllocError>
    ensures { IfOk result (λ more. (other : List ℕ) → found in_order other more
        ≡ (if equal name.now other then Some target.now else found in_order other targets.entry)) }
{
    targets.set(alloc, Word::of(name), Word::of(target))?;
    Ok(targets)
}
