//! What the names that a proof term cites mean.
ghost use Rattle.std.specs.Prelude.{◌≡◌, ◌++◌, [], OnOk, reverse};
ghost use Rattle.std.specs.List.{list_any};
ghost use Rattle.doc_nodes.specs.Names.{equal};
ghost use Rattle.proof_terms.specs.declared.term.Term.{fold-Term};
ghost use Rattle.isar_rules.specs.Cites.{Cited, cited, cited_layer, under, refs};

use command_steps::ref_report;
use nj_formula::Name;
use proof_terms::{Cite, Term};
use report_markup::Report;
use sqlite_items::Items;
use std::alloc::{AllocError, Global};
use std::cmp::Ordering;
use theory_ctx::{Lookup, Scope};

/// Whether both are the same name.
fn is_same(name: &Name, other: &Name) -> bool
    ensures { result ≡ equal name.now other.now }
{
    match name.as_str().cmp(other.as_str()) {
        Ordering::Equal => true,
        Ordering::Less | Ordering::Greater => false,
    }
}

/// Whether the name is one of these.
fn is_own(own: &[Name], name: &Name) -> bool
    ensures { result ≡ list_any (equal name.now) (reverse own.now) }
{
    own.iter().rev().any(|other| is_same(name, other))
}

/// Adds the report of a cited name, under the names of the term's own assumptions.
fn add_cited(
    alloc: Global,
    scope: &Scope,
    own: &[Name],
    cite: &Cite,
    reports: &mut Items<Report>,
) -> Result<(), AllocError>
    ensures { OnOk result (reports.new
        ≡ reports.old ++ cited scope.now cite.now (reverse own.now)) }
{
    let name = &cite.name;
    if is_own(own, name) {
        return reports.push(ref_report(alloc, cite.range, None, name)?);
    }
    match scope.lookup(name.as_str()) {
        Lookup::Found { theory, name, .. } => {
            reports.push(ref_report(alloc, cite.range, theory, name)?)
        }
        Lookup::Unknown | Lookup::Ambiguous { .. } => Ok(()),
    }
}

/// Adds the reports of a term. `own` are the names of the assumptions that it stands in, the
/// innermost last.
#[cycle(refs)]
fn add_refs(
    alloc: Global,
    scope: &Scope,
    own: &mut Items<Name>,
    term: &Term,
    reports: &mut Items<Report>,
) -> Result<(), AllocError>
    ensures refs { OnOk result (reports.new ≡ reports.old
        ++ fold-Term Cited (cited_layer scope.now) term.now (reverse own.old)) }
    ensures own { OnOk result (own.new ≡ own.old) }
{
    match term {
        Term::Fact(cite) => add_cited(alloc, scope, own.as_slice(), cite, reports),
        Term::ConjI(t, u) | Term::ImpE(_, t, u) | Term::NotE(_, t, u) => {
            add_refs(alloc, scope, own, t.get(), reports)?;
            add_refs(alloc, scope, own, u.get(), reports)
        }
        Term::ConjE1(_, t) | Term::ConjE2(_, t) | Term::AllE(_, _, t) | Term::AllI(_, t) => {
            add_refs(alloc, scope, own, t.get(), reports)
        }
        Term::DisjI1(t) | Term::DisjI2(t) | Term::FalseE(t) | Term::ExI(_, t) => {
            add_refs(alloc, scope, own, t.get(), reports)
        }
        Term::ImpI(x, t) | Term::NotI(x, t) => {
            add_refs_under(alloc, scope, own, x, t.get(), reports)
        }
        Term::DisjE(_, _, t, x, u, y, v) => {
            add_refs(alloc, scope, own, t.get(), reports)?;
            add_refs_under(alloc, scope, own, x, u.get(), reports)?;
            add_refs_under(alloc, scope, own, y, v.get(), reports)
        }
        Term::ExE(_, _, h, t, u) => {
            add_refs(alloc, scope, own, t.get(), reports)?;
            add_refs_under(alloc, scope, own, h, u.get(), reports)
        }
    }
}

/// Adds the reports of a part that has an assumption of its own.
#[cycle(refs)]
fn add_refs_under(
    alloc: Global,
    scope: &Scope,
    own: &mut Items<Name>,
    name: &Name,
    part: &Term,
    reports: &mut Items<Report>,
) -> Result<(), AllocError>
    ensures refs { OnOk result (reports.new ≡ reports.old
        ++ under name.now (fold-Term Cited (cited_layer scope.now) part.now) (reverse own.old)) }
    ensures own { OnOk result (own.new ≡ own.old) }
{
    own.push(name.copy(alloc)?)?;
    add_refs(alloc, scope, own, part, reports)?;
    own.pop();
    Ok(())
}

/// Adds the reports of all names that a term cites.
pub(crate) fn add_cites(
    alloc: Global,
    scope: &Scope,
    term: &Term,
    reports: &mut Items<Report>,
) -> Result<(), AllocError>
    ensures { OnOk result (reports.new ≡ reports.old ++ refs scope.now term.now) }
{
    let mut own = Items::new(alloc);
    add_refs(alloc, scope, &mut own, term, reports)
}
