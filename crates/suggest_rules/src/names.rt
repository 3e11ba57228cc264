//! What a proof may cite.

use shared_map::SharedList;
use theory_ctx::Local;

/// What a proof may cite, the innermost first: the assumptions of its own term, and behind them
/// facts of the blocks around the goal.
#[derive(Drop)]
pub struct Names {
    /// How many of the facts are the term's own.
    pub own: usize,
    pub facts: SharedList<Local>,
}
