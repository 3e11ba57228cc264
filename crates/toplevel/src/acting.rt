//! Which commands are allowed where, and what each makes.
ghost use Rattle.std.specs.Prelude.{◌≡◌};
ghost use Rattle.std.specs.Option.{option_copied};
ghost use Rattle.isar_rules.specs.declared.state.Place.TheVariants as place;
ghost use Rattle.isar_rules.specs.Errors.{not_allowed};
ghost use Rattle.isar_rules.specs.Steps.{acted, tried};
ghost use Rattle.command_steps.specs.Tries.{Tries, Refuses};

use command_steps::{
    Effect, Halt, Lemma, axiom_made, begun, lemma_made, load_made, makes, proof_made, refusal,
};
use isar_rules::{Place, Shape, Theory};
use sqlite_items::Items;
use std::alloc::Global;

/// The command is not allowed here.
fn not_allowed(alloc: Global) -> Halt
    ensures { Refuses not_allowed result }
{
    refusal(alloc, "not allowed here")
}

/// A command of this shape in a theory.
fn in_theory(
    alloc: Global,
    blob: Option<&[char]>,
    theory: &Theory,
    shape: &Shape,
) -> Result<Effect, Halt>
    ensures { Tries (acted (option_copied blob.entry) (place.Theory theory.now) shape.now) result }
{
    match shape {
        Shape::End => Ok(makes(Place::End(theory.copy(alloc)?), Items::new(alloc))),
        Shape::Axiom { name, formula } => axiom_made(alloc, theory, name, formula),
        Shape::Lemma { name, formula } => lemma_made(alloc, theory, name, formula),
        Shape::Load(name) => load_made(alloc, blob, theory, name),
        _ => Err(not_allowed(alloc)),
    }
}

/// A command of this shape at a place.
fn acted(alloc: Global, blob: Option<&[char]>, place: &Place, shape: &Shape) -> Result<Effect, Halt>
    ensures { Tries (acted (option_copied blob.entry) place.now shape.now) result }
{
    match place {
        Place::Start {
            node,
            given,
            bad_keyword,
        } => match shape {
            Shape::Theory { name, imports } => {
                begun(alloc, node, given, bad_keyword, name, imports.as_slice())
            }
            _ => Err(not_allowed(alloc)),
        },
        Place::Theory(theory) => in_theory(alloc, blob, theory, shape),
        Place::Proof {
            theory,
            name,
            goal,
            proof,
        } => proof_made(alloc, &Lemma { theory, name, goal }, proof, shape),
        Place::Outside | Place::End(_) => Err(not_allowed(alloc)),
    }
}

/// The same, unless the command is malformed.
pub(crate) fn tried(
    alloc: Global,
    blob: Option<&[char]>,
    place: &Place,
    shape: Option<Shape>,
) -> Result<Effect, Halt>
    ensures { Tries (tried (option_copied blob.entry) place.now shape) result }
{
    let ended = match &shape {
        Some(shape) => acted(alloc, blob, place, shape),
        None => Err(refusal(alloc, "malformed command")),
    };
    drop(shape);
    ended
}
