ghost use Rattle.std.specs.Prelude.{◌≡◌, [], filter, map, None, IfOk, IfErr, OnOk, OnErr};
ghost use Rattle.report_markup.specs.Sorting.{insert_report};
ghost use Rattle.report_markup.specs.Crossing.{first_crossing, contains};
ghost use Rattle.report_markup.specs.Answers.{Tells};
ghost use Rattle.report_markup.specs.Standing.{Stand};

use crate::placing::placed;
use crate::report::Report;
use crate::search::{crossing, push_all, push_containing};
use crate::tree::Tree;
use pide_base::Range;
use sqlite_items::Items;
use std::alloc::{AllocError, Global};
use std::marker::Model;
use std::sync::Arc;

/// Why a report was not added.
#[derive(Clone, Copy, Debug, PartialEq, Eq)]
pub enum AddError {
    /// A kept report's range is neither equal, nor nested, nor disjoint: the first such one's, in
    /// report order.
    Overlap { with: Range },
    NoMemory,
}

impl From<AllocError> for AddError {
    ghost use Rattle.std.specs.Prelude.{◌≡◌};
    ghost use Rattle.report_markup.specs.declared.markup.AddError.TheVariants.{NoMemory};

    ghost from_gives = { λ _ error. error ≡ NoMemory };

    fn from(_: AllocError) -> AddError {
        AddError::NoMemory
    }
}

/// Reports in report order, any two of which are equal in range, nested or disjoint. Contracts see
/// it as their list. A report is added in time logarithmic in their number.
#[derive(Drop)]
pub struct MarkupTree {
    tree: Tree,
}

impl Model for MarkupTree {
    ghost use Rattle.std.specs.Prelude.{List};
    ghost use Rattle.report_markup.specs.declared.report.Report.{Report as Held};
    ghost use Rattle.report_markup.specs.Standing.{Stand};

    ghost Value = { List Held };

    ghost view = { λ markup. markup.tree };

    ghost invariant = { λ markup. Stand markup.tree };
}

impl MarkupTree {
    /// The tree of no reports, which takes no memory.
    pub fn new() -> MarkupTree
        ensures { result ≡ [] }
    {
        MarkupTree { tree: Tree::new() }
    }

    /// Adds a report in its place. It is an `Overlap` where it crosses a kept one. At an error the
    /// tree is as before.
    pub fn add(&mut self, alloc: Global, report: Report) -> Result<(), AddError>
        ensures ok { OnOk result (self.new ≡ insert_report report self.old) }
        ensures apart { OnOk result (first_crossing report.range self.old ≡ None) }
        ensures overlap { IfErr result (Tells (first_crossing report.range self.old)) }
        ensures err { OnErr result (self.new ≡ self.old) }
    {
        if let Some(with) = crossing(&self.tree, report.range) {
            return Err(AddError::Overlap { with });
        }
        let report = Arc::new(alloc, report).map_err(AllocError::from)?;
        self.tree = placed(alloc, &self.tree, &report)?;
        Ok(())
    }

    /// The reports whose range contains this one, in report order, lent.
    pub fn cumulate(&self, alloc: Global, range: Range) -> Result<Items<&Report>, AllocError>
        ensures { IfOk result (λ reports. map (λ report. report.now) reports
            ≡ filter (contains range) self.now) }
    {
        let mut reports = Items::new(alloc);
        push_containing(&mut reports, &self.tree, range)?;
        Ok(reports)
    }

    /// All reports in report order, lent.
    pub fn list(&self, alloc: Global) -> Result<Items<&Report>, AllocError>
        ensures all { IfOk result (λ reports. map (λ report. report.now) reports ≡ self.now) }
        ensures stand { Stand self.now }
    {
        let mut reports = Items::new(alloc);
        push_all(&mut reports, &self.tree)?;
        Ok(reports)
    }
}
