use crate::block::Block;
use nj_formula::{Name, Shared};

/// What an inner goal is shown for.
#[derive(Drop)]
pub(crate) enum Purpose {
    /// `have`: to be a fact of the block, of this name.
    Have(Option<Name>),
    /// `show`: the pending subgoal at this place, from 0.
    Show(usize),
}

/// A block, and what the goal inside it is shown for.
#[derive(Drop)]
pub(crate) struct Frame {
    pub(crate) block: Shared<Block>,
    pub(crate) purpose: Purpose,
}
