//! The laws of the document and of jobs, of the language of two states.
use crate::parity::Parity;
use core_jobs::job_law;
use core_rules::{
    alone_law, cancelled_law, core_law, covers_law, first_law, holders_law, rest_law, tip_law,
};
use script_lines::Fault;

/// Calls each law, and the examples that are computed.
pub(crate) fn answer(out: &mut String) -> Result<(), Fault> {
    core_law::<Parity>();
    covers_law::<Parity>();
    holders_law::<Parity>();
    first_law::<Parity>();
    cancelled_law::<Parity>();
    tip_law::<Parity>();
    rest_law::<Parity>();
    alone_law::<Parity>();
    job_law::<Parity>();
    core_rules::worked_examples();
    core_jobs::worked_examples();
    Ok(out.push_str("hold")?)
}
