//! What is known of an execution for good.

use doc_nodes::Shared;
use exec_rules::Home;
use pide_base::Flag;

/// What an execution goes by, and the flag by which its jobs are asked to stop.
#[derive(Drop)]
pub struct Known {
    pub home: Shared<Home>,
    pub flag: Flag,
}
