//! What is told of facts.
use nj_formula::Formula;
use std::alloc::AllocError;
use theory_ctx::Lookup;

/// The name of an atom.
pub(crate) fn said(formula: &Formula) -> &str {
    match formula {
        Formula::Atom(predicate, _) => predicate.as_str(),
        _ => "?",
    }
}

/// Adds what a name means: `T.n: P`, `local.n: P`, `unknown` or `ambiguous B.n, C.n`.
pub(crate) fn put_meaning(out: &mut String, lookup: Lookup<'_>) -> Result<(), AllocError> {
    match lookup {
        Lookup::Found {
            theory,
            name,
            formula,
        } => {
            let theory = match theory {
                Some(theory) => theory.as_str(),
                None => "local",
            };
            let name = name.as_str();
            let said = said(formula);
            write!(out, "{theory}.{name}: {said}")
        }
        Lookup::Unknown => out.push_str("unknown"),
        Lookup::Ambiguous { first, second } => write!(out, "ambiguous {first}, {second}"),
    }
}
