//! What is suggested for a goal.
ghost use Rattle.std.specs.Prelude.{◌≡◌, IfOk, OnOk, take};
ghost use Rattle.suggest_rules.specs.Names.{unhidden, most_cited, is_name_of};
ghost use Rattle.suggest_rules.specs.Search.{suggested};
ghost use Rattle.nj_suggest.specs.Chosen.{with_next};

use crate::search::found;
use joined_results::both;
use nj_formula::Formula;
use proof_terms::Term;
use shared_map::SharedList;
use sqlite_items::Items;
use std::alloc::{AllocError, Global};
use suggest_rules::Names;
use theory_ctx::{Local, Scope};

/// How many facts of the blocks may be cited.
const MOST_CITED: usize = 16;

/// How deep a suggested proof is at most.
const DEEPEST: usize = 4;

/// A local fact of the same name and formula.
fn copied(alloc: Global, local: &Local) -> Result<Local, AllocError>
    ensures { IfOk result (λ copy. copy ≡ local.now) }
{
    let (name, formula) = both(local.name.copy(alloc), local.formula.copy(alloc))?;
    Ok(Local { name, formula })
}

/// Whether one of the facts has the name of this one.
fn is_hidden(chosen: &[Local], local: &Local) -> bool
    ensures { result ≡ is_name_of chosen.now local.now.name }
{
    for other in chosen {
        if other.name.is(local.name.as_str()) {
            return true;
        }
    }
    false
}

/// Adds a fact, unless one further in hides it.
fn add_unhidden(alloc: Global, chosen: &mut Items<Local>, local: &Local) -> Result<(), AllocError>
    ensures { OnOk result (chosen.new ≡ with_next chosen.old local.now) }
{
    if is_hidden(chosen.as_slice(), local) {
        return Ok(());
    }
    chosen.push(copied(alloc, local)?)
}

/// The local facts that may be cited, the innermost first.
fn chosen(alloc: Global, scope: &Scope) -> Result<Items<Local>, AllocError>
    ensures { IfOk result (λ locals. locals ≡ take most_cited (unhidden scope.now.locals)) }
{
    let mut chosen = Items::new(alloc);
    let mut left = scope.locals();
    'locals: while chosen.len() < MOST_CITED {
        let Some(local) = left.next() else {
            return Ok(chosen);
        };
        add_unhidden(alloc, &mut chosen, local)?;
    }
    Ok(chosen)
}

/// The same facts as a list that grows at its front.
fn listed(alloc: Global, facts: Items<Local>) -> Result<SharedList<Local>, AllocError>
    ensures { IfOk result (λ list. list ≡ facts) }
{
    let mut list = SharedList::new();
    let mut rest = facts;
    'facts: while let Some(local) = rest.pop() {
        list = list.with_first(alloc, local)?;
    }
    Ok(list)
}

/// The proof that is suggested for the goal in this scope, where these are the aliases of commands,
/// in scalars; None exactly where the search finds none. It cites at most 16 local facts, and facts
/// stand in at most three rules. The ranges of its names are empty. An error says that there was no
/// memory.
pub fn suggest(
    alloc: Global,
    goal: &Formula,
    scope: &Scope,
    aliases: &[Items<char>],
) -> Result<Option<Term>, AllocError>
    ensures { IfOk result (λ term. term ≡ suggested goal.now scope.now.locals aliases.now) }
{
    let facts = listed(alloc, chosen(alloc, scope)?)?;
    let names = Names { own: 0, facts };
    let term = found(alloc, aliases, &names, goal, DEEPEST);
    drop(names);
    term
}
