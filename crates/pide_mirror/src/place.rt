//! A command that has an execution.
ghost use Rattle.std.specs.Prelude.{◌≡◌, IfOk};
ghost use Rattle.pide_mirror.specs.Places.{unreported, reports_of, with_reports};

use doc_nodes::Shared;
use joined_results::{both, each_of_three};
use pide_base::PartKind;
use report_markup::Report;
use sqlite_items::Items;
use std::alloc::AllocError;
use std::mem::replace;
use text_edits::Text;

/// What a part reported, in memory that all versions share.
pub type Reports = Shared<Items<Report>>;

/// A command that has an execution in a version: its source, and what the parts of the execution
/// reported there, where they are finished, at ranges that count scalars of the source. All that
/// costs its size is shared with the other versions in which the command has the execution.
#[derive(Drop)]
pub struct Place {
    pub source: Shared<Text>,
    pub eval: Option<Reports>,
    pub fork: Option<Reports>,
    pub print: Option<Reports>,
}

/// The same reports, if there are any, in the same memory.
fn copied(reports: &Option<Reports>) -> Result<Option<Reports>, AllocError>
    ensures { IfOk result (λ copy. copy ≡ reports.now) }
{
    match reports {
        Some(reports) => Ok(Some(reports.copy()?)),
        None => Ok(None),
    }
}

impl Place {
    /// A command of which nothing is reported.
    pub(crate) fn new(source: Shared<Text>) -> Place
        ensures { result ≡ unreported source }
    {
        Place {
            source,
            eval: None,
            fork: None,
            print: None,
        }
    }

    /// The same, in the same memory.
    pub(crate) fn copy(&self) -> Result<Place, AllocError>
        ensures { IfOk result (λ place. place ≡ self.now) }
    {
        let reports = each_of_three(copied(&self.eval), copied(&self.fork), copied(&self.print));
        let (source, (eval, fork, print)) = both(self.source.copy(), reports)?;
        Ok(Place {
            source,
            eval,
            fork,
            print,
        })
    }

    /// With the reports of the part of this kind.
    pub(crate) fn with(mut self, kind: PartKind, reports: Reports) -> Place
        ensures { result ≡ with_reports kind reports self }
    {
        let before = match kind {
            PartKind::Eval => replace(&mut self.eval, Some(reports)),
            PartKind::Fork => replace(&mut self.fork, Some(reports)),
            PartKind::Print => replace(&mut self.print, Some(reports)),
        };
        drop(before);
        self
    }
}
