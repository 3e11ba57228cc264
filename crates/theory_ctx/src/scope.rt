ghost use Rattle.std.specs.Prelude.{◌≡◌, [], ◌∷◌, ◌++◌, IfOk, OnOk, OnErr};
ghost use Rattle.std.specs.Option.{option_copied};
ghost use Rattle.theory_ctx.specs.Answers.{told_answer};
ghost use Rattle.theory_ctx.specs.Looked.{name_parts};
ghost use Rattle.theory_ctx.specs.Locals.{first_named, joined, local_of, looked_in};

use crate::cited::Cited;
use crate::ctx::Ctx;
use crate::inner_scope::InnerScope;
use crate::local::Local;
use crate::locals::Locals;
use crate::lookup::Lookup;
use crate::scope_locals::ScopeLocals;
use nj_formula::{Formula, Name};
use shared_map::SharedList;
use sqlite_items::Items;
use std::alloc::{AllocError, Global};
use std::marker::Model;
use std::mem::replace;

/// What a lookup goes through: local facts of blocks, the innermost of which is the newest, and the
/// facts that a theory sees. Contracts see it as these lists. An unnamed local fact can't be cited,
/// so it is never put here.
#[derive(Drop)]
pub struct Scope<'a> {
    /// The local facts of each block, the innermost block first.
    blocks: SharedList<Locals>,
    theory: &'a str,
    ctx: &'a Ctx,
}

impl<'a> Model for Scope<'a> {
    ghost use Rattle.theory_ctx.specs.Locals.{Scoped, joined};
    ghost use Rattle.nj_formula.specs.contracts.formula.Formula as formula;
    ghost use Rattle.std.specs.Coded.{codes};

    ghost Value = { Scoped };

    ghost coded = { Prim.hlevel (codes, formula.the_row.coded) };

    ghost view = { λ scope. record {
      locals = joined scope.blocks;
      theory = scope.theory.now;
      facts = scope.ctx.now;
    } };
}

impl<'a> Scope<'a> {
    /// The scope of a theory, with no local facts. It takes no memory.
    pub fn new(theory: &'a str, ctx: &'a Ctx) -> Scope<'a>
        ensures { result ≡ record { locals = []; theory = theory.now; facts = ctx.now } }
    {
        Scope {
            blocks: SharedList::new(),
            theory,
            ctx,
        }
    }

    /// The scope of a theory, with the local facts of these blocks, the innermost block first. It
    /// takes no memory.
    pub fn in_blocks(theory: &'a str, ctx: &'a Ctx, blocks: SharedList<Locals>) -> Scope<'a>
        ensures { result ≡ record {
          locals = joined blocks;
          theory = theory.now;
          facts = ctx.now;
        } }
    {
        Scope {
            blocks,
            theory,
            ctx,
        }
    }

    /// Adds a local fact, as the innermost one. For want of memory it adds nothing.
    pub fn push(&mut self, alloc: Global, name: &str, formula: Formula) -> Result<(), AllocError>
        ensures ok { OnOk result (self.new ≡ record self.old {
          locals = record { name = name.now; formula = formula } ∷ self.old.locals;
        }) }
        ensures err { OnErr result (self.new ≡ self.old) }
    {
        let locals = only(alloc, name, &formula);
        drop(formula);
        self.push_block(alloc, locals?)
    }

    /// Adds the local facts of a block, as the innermost ones, in time that doesn't depend on how
    /// many they are. For want of memory it adds nothing.
    pub fn push_all(&mut self, alloc: Global, locals: &Locals) -> Result<(), AllocError>
        ensures ok { OnOk result (self.new
            ≡ record self.old { locals = locals.now ++ self.old.locals }) }
        ensures err { OnErr result (self.new ≡ self.old) }
    {
        self.push_block(alloc, locals.copy()?)
    }

    /// Adds a block inside the others.
    fn push_block(&mut self, alloc: Global, locals: Locals) -> Result<(), AllocError>
        ensures ok { OnOk result (self.new
            ≡ record self.old { locals = locals ++ self.old.locals }) }
        ensures err { OnErr result (self.new ≡ self.old) }
    {
        let blocks = self.blocks.with_first(alloc, locals)?;
        drop(replace(&mut self.blocks, blocks));
        Ok(())
    }

    /// The local facts, the innermost first, lent.
    pub fn locals(&self) -> ScopeLocals<'_>
        ensures { result ≡ self.now.locals }
    {
        ScopeLocals {
            blocks: &self.blocks,
            block: 0,
            place: 0,
        }
    }

    /// A scope inside this one, which is lent. It takes no memory.
    pub fn inner(&self, alloc: Global) -> InnerScope<'_, 'a>
        ensures { result ≡ record { own = []; outer = self.now } }
    {
        InnerScope {
            outer: self,
            locals: Items::new(alloc),
        }
    }

    /// The fact that a name means here: the innermost local fact of this name, else what
    /// `Ctx::lookup` answers. A long name passes the local facts by.
    pub fn lookup(&self, name: &str) -> Lookup<'_>
        ensures { told_answer result ≡ looked_in self.now name.now }
    {
        match self.local(name) {
            Some(local) => local.found(),
            None => self.ctx.lookup(self.theory, name),
        }
    }

    fn local(&self, name: &str) -> Option<&Local>
        ensures { option_copied result ≡ local_of self.now.locals (name_parts name.now) }
    {
        match Cited::new(name) {
            Cited::Plain(name) => first_named(&self.blocks, name),
            Cited::Long { .. } | Cited::Longer => None,
        }
    }
}

/// One local fact.
fn only(alloc: Global, name: &str, formula: &Formula) -> Result<Locals, AllocError>
    ensures { IfOk result (λ locals. locals
        ≡ record { name = name.now; formula = formula.now } ∷ []) }
{
    let name = Name::new(alloc, name)?;
    Locals::new().with_first(alloc, &name, formula)
}

/// The first of the local facts of these blocks that has this name.
fn first_named<'a>(blocks: &'a SharedList<Locals>, name: &str) -> Option<&'a Local>
    ensures { option_copied result ≡ first_named name.now (joined blocks.now) }
{
    for locals in blocks.iter() {
        if let Some(local) = locals.first_named(name) {
            return Some(local);
        }
    }
    None
}
