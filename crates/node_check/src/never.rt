//! Working on commands that nobody asks to stop.
ghost use Rattle.std.specs.Prelude.{◌≡◌, None, IfOk};

use language::{Answer, Language, Made};
use pide_base::Never;
use report_markup::Report;
use sqlite_items::Items;
use std::alloc::{AllocError, Global};

/// What the command of this source makes of the state; there is no blob for it.
pub(crate) fn step<L: Language>(
    alloc: Global,
    language: &L,
    source: &[char],
    state: &L::State,
) -> Result<Made<L::State>, AllocError>
    ensures { IfOk result (λ made. made ≡ L.lang.step source.now None state.now) }
{
    match language.step(alloc, source, None, state, &mut Never::new()) {
        Answer::Given(made) => Ok(made),
        Answer::Stopped => unreachable!(),
        Answer::NoMemory => Err(AllocError),
    }
}

/// What is reported later of the command, by the state before it.
pub(crate) fn fork<L: Language>(
    alloc: Global,
    language: &L,
    source: &[char],
    state: &L::State,
) -> Result<Items<Report>, AllocError>
    ensures { IfOk result (λ reports. reports ≡ L.lang.fork source.now state.now) }
{
    match language.fork(alloc, source, state, &mut Never::new()) {
        Answer::Given(reports) => Ok(reports),
        Answer::Stopped => unreachable!(),
        Answer::NoMemory => Err(AllocError),
    }
}
