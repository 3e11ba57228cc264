//! The laws of truth and of derivations, at one structure: the two sides of a coin.
use nj_formula::{Structure, absent_name_law, instance_law, substitution_law};
use nj_kernel::{consistency_law, soundness_law};
use script_lines::{Answer, Fault, say};

struct Coin;

impl Structure for Coin {
    ghost use Rattle.std.specs.Prelude.{◌≡◌, true, false, [], ◌∷◌};

    type Point = bool;

    // a function of one side gives it back, any other function heads
    ghost apply = { λ function sides. elim sides [ [] ↦ true | (side ∷ more) ↦ side ] };

    // a predicate claims that all its arguments are heads
    ghost holds = { λ predicate sides. sides ≡ true ∷ [] };
}

/// Calls the laws of formulas and of the kernel.
pub(crate) fn answer(out: &mut String, laws: &str) -> Answer {
    if laws != "logic" {
        return Err(Fault::Line);
    }
    instance_law();
    substitution_law::<Coin>();
    absent_name_law::<Coin>();
    soundness_law::<Coin>();
    consistency_law();
    say(out, "called")
}
