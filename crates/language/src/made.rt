//! What a node begins with, and what a command makes.

use doc_nodes::Shared;
use report_markup::Report;
use sqlite_items::Items;

/// An import of a node: its name, and the state behind its last command.
#[derive(Debug, Drop)]
pub struct Imported<S> {
    pub name: Items<char>,
    pub state: Shared<S>,
}

/// What a node has from its imports.
#[derive(Debug, Drop)]
pub enum Imports<S> {
    /// Of an ordered node: its imports, in the header's order.
    Ordered(Items<Imported<S>>),
    /// Of another node: its first bad import.
    Bad(Items<char>),
}

/// What a command makes.
#[derive(Debug, Drop)]
pub struct Made<S> {
    pub state: S,
    pub reports: Items<Report>,
    /// Whether the command forks: more reports come of it later.
    pub forks: bool,
}
