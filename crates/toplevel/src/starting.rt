//! How a node begins.
ghost use Rattle.std.specs.Prelude.{◌≡◌, ◌++◌, IfOk, find, is_none, is_some, map};
ghost use Rattle.std.specs.List.{filter_map};
ghost use Rattle.std.specs.Option.{option_copied};
ghost use Rattle.isar_rules.specs.declared.state.Place.TheVariants as place;
ghost use Rattle.isar_rules.specs.Starts.{facts_at, imported_facts, given_from, start_state};

use doc_nodes::NodeAliases;
use isar_rules::{Given, Place, State};
use joined_results::{both, each_of_three};
use language::{Imported, Imports};
use nj_formula::Name;
use pide_base::NodeName;
use sqlite_items::Items;
use std::alloc::{AllocError, Global};
use theory_ctx::Ctx;

/// The facts at a place; before and outside of a theory there are none to give.
fn facts_at(place: &Place) -> Option<&Ctx>
    ensures { option_copied result ≡ facts_at place.now }
{
    match place {
        Place::Start { .. } | Place::Outside => None,
        Place::Theory(theory) => Some(&theory.facts),
        Place::Proof { theory, .. } => Some(&theory.facts),
        Place::End(theory) => Some(&theory.facts),
    }
}

/// The facts that an import has.
fn facts_of(import: &Imported<State>) -> Option<&Ctx>
    ensures { option_copied result ≡ imported_facts import.now }
{
    facts_at(&import.state.get().place)
}

/// The first import that has no facts to give.
fn first_bad(imports: &[Imported<State>]) -> Option<&Imported<State>>
    ensures { option_copied result ≡ find (λ i. is_none (imported_facts i)) imports.now }
{
    imports.iter().find(|import| facts_of(import).is_none())
}

/// The facts of each import that has some.
fn parts_of<'a>(alloc: Global, imports: &'a [Imported<State>]) -> Result<Vec<&'a Ctx>, AllocError>
    ensures { IfOk result (λ parts. map (λ part. part.now) parts.items
        ≡ filter_map imported_facts imports.now) }
{
    let mut parts = Vec::new(alloc);
    let mut rest = imports;
    'imports: while let [import, more @ ..] = rest {
        if let Some(facts) = facts_of(import) {
            parts.push(facts)?;
        }
        rest = more;
    }
    Ok(parts)
}

/// What a node has from its imports.
fn given_from(alloc: Global, imports: &Imports<State>) -> Result<Given, AllocError>
    ensures { IfOk result (λ given. given ≡ given_from imports.now) }
{
    let all = match imports {
        Imports::Ordered(all) => all.as_slice(),
        Imports::Bad(name) => {
            return Ok(Given::Bad(Items::from_slice(alloc, name.as_slice())?));
        }
    };
    if let Some(bad) = first_bad(all) {
        let name = bad.name.as_slice();
        return Ok(Given::Bad(Items::from_slice(alloc, name)?));
    }
    let parts = parts_of(alloc, all)?;
    Ok(Given::Facts(Ctx::merge(alloc, &parts)?))
}

/// The name of the first bad pair of aliases.
fn bad_keyword(alloc: Global, aliases: &NodeAliases) -> Result<Option<Items<char>>, AllocError>
    ensures { IfOk result (λ bad. bad ≡ aliases.now.bad) }
{
    match &aliases.bad {
        Some(name) => Ok(Some(Items::from_slice(alloc, name.as_slice())?)),
        None => Ok(None),
    }
}

/// The place before the first command of a node.
fn before_all(
    alloc: Global,
    node: &NodeName,
    imports: &Imports<State>,
    aliases: &NodeAliases,
) -> Result<Place, AllocError>
    ensures { IfOk result (λ p. p
        ≡ place.Start node.now (given_from imports.now) aliases.now.bad) }
{
    let parts = each_of_three(
        Name::new(alloc, node.as_str()),
        given_from(alloc, imports),
        bad_keyword(alloc, aliases),
    );
    let (node, given, bad_keyword) = parts?;
    Ok(Place::Start {
        node,
        given,
        bad_keyword,
    })
}

/// The state before the first command of a node.
pub(crate) fn start(
    alloc: Global,
    node: &NodeName,
    imports: &Imports<State>,
    aliases: &NodeAliases,
) -> Result<State, AllocError>
    ensures { IfOk result (λ state. state ≡ start_state node.now imports.now aliases.now) }
{
    let place = before_all(alloc, node, imports, aliases);
    let (place, aliases) = both(place, aliases.pairs.copy())?;
    Ok(State { place, aliases })
}
