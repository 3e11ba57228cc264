//! The laws that an update goes by.
ghost use Rattle.prover_core.specs.Laws.{PlanLaws};

use core_rules::{cancelled_law, homes_law, places_law};
use exec_assign::new_numbers_law;
use exec_rules::numbers_law;
use language::Language;

/// What the laws of the layers below say of an update.
pub(crate) fn plan_laws<L: Language>()
    ensures { PlanLaws L.lang }
{
    homes_law::<L>();
    places_law::<L>();
    cancelled_law::<L>();
    exec_assign::cancelled_law();
    new_numbers_law();
    numbers_law();
}
