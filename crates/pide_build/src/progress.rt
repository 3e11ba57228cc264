//! What is done of a document so far.
ghost use Rattle.std.specs.Prelude.{◌≡◌, ◌<◌, ℕ, [], List, Option, length, slice_set, OnOk, IfOk, Some};
ghost use Rattle.std.specs.List.{All};
ghost use Rattle.doc_nodes.specs.Imports.{NodeList};
ghost use Rattle.language.specs.Lang.{Lang};
ghost use Rattle.core_rules.specs.Scratch.{Runs};
ghost use Rattle.pide_build.specs.Handed.{AreBehind};
ghost use Rattle.pide_build.specs.declared.telling.BuiltNode.{BuiltNode};
ghost use Rattle.pide_build.specs.Running.{run_batch};
ghost use Rattle.pide_build.specs.Standing.{Keeps, MakeSo};

use crate::telling::Checked;
use doc_nodes::Shared;
use std::alloc::{AllocError, Global};
use std::mem;

/// What is done of a document, by the places of its nodes.
#[derive(Drop)]
pub(crate) struct Progress<M, S> {
    /// The state behind each node that is done.
    pub behind: Vec<Option<Shared<S>>>,
    /// What is told of each of them.
    pub told: Vec<Option<M>>,
}

/// The value in memory that can be shared.
fn shared<T: Drop>(alloc: Global, value: T) -> Result<Shared<T>, AllocError>
    ensures { IfOk result (λ shared. shared ≡ value) }
{
    Shared::new(alloc, value).map_err(|_| AllocError)
}

impl<M: Drop, S: Drop> Progress<M, S> {
    /// Nothing is done of so many nodes.
    pub(crate) fn new(alloc: Global, count: usize) -> Result<Progress<M, S>, AllocError>
        ensures { (l : Lang S) (told : BuiltNode → M) (nodes : NodeList) → length nodes ≡ count
            → IfOk result (λ kept. Keeps l told nodes [] kept) }
    {
        let mut behind = Vec::with_capacity(alloc, count)?;
        let mut told = Vec::with_capacity(alloc, count)?;
        'nodes: for _ in 0..count {
            behind.push(None)?;
            told.push(None)?;
        }
        Ok(Progress { behind, told })
    }

    /// Keeps what came of the node at a place.
    fn keep(
        &mut self,
        alloc: Global,
        place: usize,
        checked: Checked<M, S>,
    ) -> Result<(), AllocError>
        requires state { place < length self.old.behind.items }
        requires told { place < length self.old.told.items }
        ensures states { OnOk result (self.new.behind.items
            ≡ slice_set self.old.behind.items place (Some checked.behind)) }
        ensures tellings { OnOk result (self.new.told.items
            ≡ slice_set self.old.told.items place (Some checked.told)) }
    {
        let Checked { told, behind } = checked;
        let behind = shared(alloc, behind)?;
        drop(mem::replace(&mut self.behind[place], Some(behind)));
        drop(mem::replace(&mut self.told[place], Some(told)));
        Ok(())
    }

    /// Keeps what came of the nodes at these places.
    pub(crate) fn keep_all(
        &mut self,
        alloc: Global,
        places: &[usize],
        made: Vec<Checked<M, S>>,
    ) -> Result<(), AllocError>
        requires states { All (λ p. p < length self.old.behind.items) places.now }
        requires told { All (λ p. p < length self.old.told.items) places.now }
        requires many { length made.items ≡ length places.now }
        ensures { (l : Lang S) (told : BuiltNode → M) (nodes : NodeList) (before : Runs S)
            (behind : List (Option S)) → AreBehind l before behind
            → MakeSo l told nodes behind places.now made.items
            → Keeps l told nodes before self.old
            → OnOk result (Keeps l told nodes (run_batch l nodes [] before places.now before)
            self.new) }
    {
        let mut made = made;
        made.reverse();
        let mut rest = places;
        'places: while let [place, more @ ..] = rest {
            let Some(checked) = made.pop() else {
                unreachable!()
            };
            self.keep(alloc, *place, checked)?;
            rest = more;
        }
        Ok(())
    }
}
