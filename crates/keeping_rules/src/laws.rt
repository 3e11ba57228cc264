//! What each entry leaves of a session's state.

ghost use Rattle.keeping_rules.specs.Messages.{LookLaws, ChangeLaws, UpdateLaw};
ghost use Rattle.keeping_rules.specs.Workers.{FreeLaws, StepLaws, WriterLaws};

use crate::list_laws::{history_law, unheard_law};
use core_rules::first_law;
use language::Language;
use session_replies::{cancelling_law, report_law};

/// A message that is refused changes nothing but that a message came, and so does one that only
/// looks.
pub fn look_laws<L: Language>()
    ensures { LookLaws L.lang }
{}

/// Cancellations, removals of versions and the choice of the protocol leave a sound state.
pub fn change_laws<L: Language>()
    ensures { ChangeLaws L.lang }
{
    cancelling_law::<L>();
    unheard_law::<L>();
}

/// An update leaves a sound state.
pub fn update_law<L: Language>()
    ensures { UpdateLaw L.lang }
{}

/// Workers that work as they find parts ready leave a sound state.
pub fn free_laws<L: Language>()
    ensures { FreeLaws L.lang }
{
    first_law::<L>();
    history_law::<L>();
    report_law::<L>();
}

/// The steps that messages tell workers to take leave a sound state.
pub fn step_laws<L: Language>()
    ensures { StepLaws L.lang }
{
    first_law::<L>();
    history_law::<L>();
    report_law::<L>();
}

/// The end, and what the writer does, leave a sound state.
pub fn writer_laws<L: Language>()
    ensures { WriterLaws L.lang }
{}
