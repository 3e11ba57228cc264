//! What an accepted command makes.
ghost use Rattle.std.specs.Prelude.{◌≡◌};
ghost use Rattle.isar_rules.specs.Effects.{makes};

use isar_rules::Place;
use report_markup::Report;
use sqlite_items::Items;
use std::marker::Model;

/// Where the node's commands have come, what is reported beside the command's word, and whether
/// more is worked on behind it.
#[derive(Drop)]
pub struct Effect {
    pub place: Place,
    pub reports: Items<Report>,
    pub forks: bool,
}

impl Model for Effect {
    ghost use Rattle.isar_rules.specs.Effects.{Effect as Made};
    ghost use Rattle.nj_formula.specs.contracts.formula.Formula as formula;
    ghost use Rattle.std.specs.Coded.{codes};

    ghost Value = { Made };

    ghost coded = { Prim.hlevel (codes, formula.the_row.coded) };

    ghost view = { λ e. record { place = e.place; reports = e.reports; forks = e.forks } };
}

/// What a command makes that does not fork.
pub fn makes(place: Place, reports: Items<Report>) -> Effect
    ensures { result ≡ makes place reports }
{
    Effect {
        place,
        reports,
        forks: false,
    }
}
