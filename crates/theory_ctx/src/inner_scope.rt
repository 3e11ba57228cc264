ghost use Rattle.std.specs.Prelude.{◌≡◌, ◌∷◌, OnOk, OnErr, drop, reverse, slice_get};
ghost use Rattle.std.specs.Option.{option_copied};
ghost use Rattle.theory_ctx.specs.Answers.{told_answer};
ghost use Rattle.theory_ctx.specs.Looked.{name_parts};
ghost use Rattle.theory_ctx.specs.Locals.{first_named, local_of, looked_in, seen};

use crate::cited::Cited;
use crate::local::Local;
use crate::lookup::Lookup;
use crate::scope::Scope;
use nj_formula::{Formula, Name};
use sqlite_items::Items;
use std::alloc::{AllocError, Global};
use std::marker::Model;

/// A scope with local facts of its own inside those of another scope, which it borrows. Contracts
/// see its own local facts, the newest first, apart from the other scope; what is sought goes
/// through both (`seen`).
#[derive(Drop)]
pub struct InnerScope<'s, 'a> {
    pub(crate) outer: &'s Scope<'a>,
    pub(crate) locals: Items<Local>,
}

impl<'s, 'a> Model for InnerScope<'s, 'a> {
    ghost use Rattle.std.specs.Prelude.{reverse};
    ghost use Rattle.theory_ctx.specs.Locals.{Nested};
    ghost use Rattle.nj_formula.specs.contracts.formula.Formula as formula;
    ghost use Rattle.std.specs.Coded.{codes};

    ghost Value = { Nested };

    ghost coded = { Prim.hlevel (codes, formula.the_row.coded) };

    ghost view = { λ scope. record { own = reverse scope.locals; outer = scope.outer.now } };
}

impl<'s, 'a> InnerScope<'s, 'a> {
    /// Adds a local fact, as the innermost one. For want of memory it adds nothing.
    pub fn push(&mut self, alloc: Global, name: &Name, formula: Formula) -> Result<(), AllocError>
        ensures ok { OnOk result (self.new ≡ record self.old {
          own = record { name = name.now; formula = formula } ∷ self.old.own;
        }) }
        ensures err { OnErr result (self.new ≡ self.old) }
    {
        let Ok(name) = name.copy(alloc) else {
            drop(formula);
            return Err(AllocError);
        };
        self.locals.push(Local { name, formula })?;
        Ok(())
    }

    /// Takes the innermost of its own local facts back, if there is one; those of the scope that it
    /// borrows stay.
    pub fn pop(&mut self) -> Option<Local>
        ensures local { result ≡ slice_get self.old.own 0 }
        ensures rest { self.new ≡ record self.old { own = drop 1 self.old.own } }
    {
        self.locals.pop()
    }

    /// The fact that a name means here, as `Scope::lookup` says.
    pub fn lookup(&self, name: &str) -> Lookup<'_>
        ensures { told_answer result ≡ looked_in (seen self.now) name.now }
    {
        match cited_in(self.locals.as_slice(), name) {
            Some(local) => local.found(),
            None => self.outer.lookup(name),
        }
    }
}

/// The last of the facts that is cited so. A long name passes them by.
fn cited_in<'a>(locals: &'a [Local], name: &str) -> Option<&'a Local>
    ensures { option_copied result ≡ local_of (reverse locals.now) (name_parts name.now) }
{
    match Cited::new(name) {
        Cited::Plain(name) => newest(locals, name),
        Cited::Long { .. } | Cited::Longer => None,
    }
}

/// The last of the facts that has this name.
fn newest<'a>(locals: &'a [Local], name: &str) -> Option<&'a Local>
    ensures { option_copied result ≡ first_named name.now (reverse locals.now) }
{
    locals.iter().rev().find(|local| local.name.is(name))
}
