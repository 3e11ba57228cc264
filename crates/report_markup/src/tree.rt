ghost use Rattle.std.specs.Prelude.{◌≡◌, [], ◌∷◌, ◌++◌, IfOk, MatchOption};
ghost use Rattle.std.specs.Arc.{arc_value};
ghost use Rattle.report_markup.specs.Bounds.{LieWithin};

use crate::bounds::Bounds;
use crate::report::Report;
use std::alloc::{AllocError, Global};
use std::marker::Model;
use std::sync::Arc;

/// Reports in a balanced tree. Contracts see it as their list.
#[cycle(tree)]
#[derive(Drop)]
pub(crate) struct Tree {
    root: Option<Arc<Fork>>,
}

#[cycle(tree)]
#[derive(Drop)]
struct Fork {
    left: Tree,
    report: Arc<Report>,
    /// One more than the number of its reports.
    weight: usize,
    /// How far the reports reach.
    bounds: Bounds,
    right: Tree,
}

impl Model for Tree {
    ghost use Rattle.std.specs.Prelude.{List, length};
    ghost use Rattle.report_markup.specs.declared.report.Report.{Report as Held};

    ghost Value = { List Held };

    ghost use Rattle.report_markup.specs.Items.{reports_in, IsBounded};

    ghost view = { λ tree. reports_in tree.root };

    ghost invariant = { λ tree. IsBounded tree.root };

    ghost size = { length };

    ghost use Rattle.std.proofs.Common.{arith, length-append};

    ghost size_decreases = { λ tree bounded. Prim.grind (arith, length-append) };
}

/// The parts of a tree that has a report.
#[derive(Drop)]
pub(crate) struct Parts<'a> {
    pub(crate) left: &'a Tree,
    pub(crate) report: &'a Arc<Report>,
    pub(crate) right: &'a Tree,
}

impl Tree {
    pub(crate) fn new() -> Tree
        ensures { result ≡ [] }
    {
        Tree { root: None }
    }

    /// One more than the number of its reports.
    pub(crate) fn weight(&self) -> usize {
        match &self.root {
            None => 1,
            Some(fork) => fork.weight,
        }
    }

    /// How far its reports reach.
    pub(crate) fn bounds(&self) -> Bounds
        ensures { LieWithin result self.now }
    {
        match &self.root {
            None => Bounds {
                first: usize::MAX,
                reach: 0,
            },
            Some(fork) => fork.bounds,
        }
    }

    /// The same reports, in the same memory.
    pub(crate) fn copy(&self) -> Result<Tree, AllocError>
        ensures { IfOk result (λ tree. tree ≡ self.now) }
    {
        match &self.root {
            None => Ok(Tree { root: None }),
            Some(fork) => Ok(Tree {
                root: Some(Arc::try_clone(fork)?),
            }),
        }
    }

    pub(crate) fn parts(&self) -> Option<Parts<'_>>
        ensures { MatchOption result (self.now ≡ [])
            (λ parts. self.now ≡ parts.left.now ++ arc_value parts.report.now ∷ parts.right.now) }
    {
        match &self.root {
            None => None,
            Some(fork) => {
                let fork: &Fork = fork;
                Some(Parts {
                    left: &fork.left,
                    report: &fork.report,
                    right: &fork.right,
                })
            }
        }
    }

    /// The tree of these parts, as they stand.
    pub(crate) fn fork(
        alloc: Global,
        left: &Tree,
        report: &Arc<Report>,
        right: &Tree,
    ) -> Result<Tree, AllocError>
        ensures { IfOk result (λ tree. tree ≡ left.now ++ arc_value report.now ∷ right.now) }
    {
        let held: &Report = report;
        let bounds = Bounds::around(left.bounds(), held.range, right.bounds());
        let fork = Fork {
            left: left.copy()?,
            report: Arc::try_clone(report)?,
            weight: left.weight().saturating_add(right.weight()),
            bounds,
            right: right.copy()?,
        };
        Ok(Tree {
            root: Some(Arc::new(alloc, fork)?),
        })
    }
}
