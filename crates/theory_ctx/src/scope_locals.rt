ghost use Rattle.std.specs.Iterator.{YieldsFirstRef, item_count};

use crate::local::Local;
use crate::locals::Locals;
use shared_map::SharedList;
use std::marker::Model;

/// The local facts of a scope that are left, the innermost first, lent. Contracts see it as their
/// list. Each step takes time logarithmic in the sizes of what it goes through, but for the blocks
/// that it passes.
#[derive(Drop)]
pub struct ScopeLocals<'s> {
    /// The blocks, the innermost first.
    pub(crate) blocks: &'s SharedList<Locals>,
    /// The block that is next.
    pub(crate) block: usize,
    /// The next fact, counted from the first of this block.
    pub(crate) place: usize,
}

impl<'s> Model for ScopeLocals<'s> {
    ghost use Rattle.std.specs.Prelude.{List, drop};
    ghost use Rattle.std.specs.Coded.{codes};
    ghost use Rattle.nj_formula.specs.contracts.formula.Formula as formula;
    ghost use Rattle.theory_ctx.specs.declared.local.Local.{Local as Held};
    ghost use Rattle.theory_ctx.specs.Locals.{joined};

    ghost Value = { List Held };

    ghost coded = { Prim.hlevel (codes, formula.the_row.coded) };

    ghost view = { λ locals. drop locals.place (joined (drop locals.block locals.blocks.now)) };
}

impl<'s> Iterator for ScopeLocals<'s> {
    type Item = &'s Local;

    ghost next_gives = { YieldsFirstRef (λ rest. rest) };

    ghost remaining = { item_count (λ rest. rest) };

    fn next(&mut self) -> Option<&'s Local> {
        'behind: while self.block < self.blocks.len() {
            let Some(block) = self.blocks.get(self.block) else {
                unreachable!()
            };
            if self.place < block.len() {
                let Some(local) = block.get(self.place) else {
                    unreachable!()
                };
                self.place += 1;
                return Some(local);
            }
            self.place -= block.len();
            self.block += 1;
        }
        None
    }
}
