//! What comes of a part.

use doc_nodes::Shared;
use pide_base::Part;
use report_markup::Report;
use sqlite_items::Items;

/// What an evaluation leaves.
#[derive(Debug, Drop)]
pub struct Evaluated<S> {
    /// The state behind the command.
    pub state: Shared<S>,
    /// Whether the command forks.
    pub forks: bool,
}

/// What comes of a part that is done.
#[derive(Debug, Drop)]
pub struct Done<S> {
    pub part: Part,
    /// Their ranges count scalars of the command's source.
    pub reports: Shared<Items<Report>>,
    /// Of an evaluation alone.
    pub made: Option<Evaluated<S>>,
}
