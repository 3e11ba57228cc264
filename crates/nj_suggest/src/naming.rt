//! Names that may be cited, and those that are free.
ghost use Rattle.std.specs.Prelude.{◌≡◌, ◌+◌, ◌∷◌, not, IfOk, string_bytes};
ghost use Rattle.nj_kernel.specs.RuleNames.{rule_name};
ghost use Rattle.outer_syntax.specs.Words.{same};
ghost use Rattle.suggest_rules.specs.Names.{is_alias, is_name_of, is_taken, next_name, numbered};

use joined_results::both;
use nj_formula::{Formula, Name};
use nj_kernel::Rule;
use shared_map::SharedList;
use sqlite_items::Items;
use std::alloc::{AllocError, Global};
use suggest_rules::Names;
use theory_ctx::Local;

/// Whether both are the same scalars, where the name is in ASCII.
fn is_same(name: &str, word: &[char]) -> bool
    ensures { result ≡ same name.now word.now }
{
    let mut front = name.as_bytes();
    let mut back = word;
    'scalars: while let [byte, more @ ..] = front {
        let [scalar, rest @ ..] = back else {
            return false;
        };
        if *byte as u32 != *scalar as u32 {
            return false;
        }
        front = more;
        back = rest;
    }
    back.is_empty()
}

/// Whether the name is an alias.
fn is_alias(aliases: &[Items<char>], name: &str) -> bool
    ensures { result ≡ is_alias aliases.now name.now }
{
    for alias in aliases {
        if is_same(name, alias.as_slice()) {
            return true;
        }
    }
    false
}

/// Whether one of the facts has the name.
fn is_name_of(facts: &SharedList<Local>, name: &str) -> bool
    ensures { result ≡ is_name_of facts.now name.now }
{
    for local in facts.iter() {
        if local.name.is(name) {
            return true;
        }
    }
    false
}

/// Whether a rule may stand in a term: its name is no alias.
pub(crate) fn is_usable(aliases: &[Items<char>], rule: Rule) -> bool
    ensures { result ≡ not (is_alias aliases.now (rule_name rule)) }
{
    !is_alias(aliases, rule.name())
}

/// Whether the name is that of a fact, or an alias.
fn is_taken(aliases: &[Items<char>], names: &Names, name: &str) -> bool
    ensures { result ≡ is_taken aliases.now names.now name.now }
{
    is_name_of(&names.facts, name) || is_alias(aliases, name)
}

/// `h` with the number of the next assumption.
fn numbered(alloc: Global, names: &Names) -> Result<String, AllocError>
    ensures { IfOk result (λ text. string_bytes text ≡ numbered names.now) }
{
    let Some(number) = names.own.checked_add(1) else {
        return Err(AllocError);
    };
    format!(in alloc; "h{number}")
}

/// The name of the next assumption: with `'` added until it is not taken.
pub(crate) fn next_name(
    alloc: Global,
    aliases: &[Items<char>],
    names: &Names,
) -> Result<Name, AllocError>
    ensures { IfOk result (λ name. name ≡ next_name aliases.now names.now) }
{
    let mut text = numbered(alloc, names)?;
    'primes: while is_taken(aliases, names, text.as_str()) {
        text.push('\'')?;
    }
    Name::new(alloc, text.as_str())
}

/// What may be cited once this formula is assumed under this name.
pub(crate) fn with_own(
    alloc: Global,
    names: &Names,
    name: &Name,
    formula: &Formula,
) -> Result<Names, AllocError>
    ensures { IfOk result (λ more. more ≡ record {
      own = names.now.own + 1;
      facts = record { name = name.now; formula = formula.now } ∷ names.now.facts;
    }) }
{
    let Some(own) = names.own.checked_add(1) else {
        return Err(AllocError);
    };
    let (name, formula) = both(name.copy(alloc), formula.copy(alloc))?;
    let facts = names.facts.with_first(alloc, Local { name, formula })?;
    Ok(Names { own, facts })
}
