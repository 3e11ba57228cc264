ghost use Rattle.std.specs.Prelude.{◌≡◌, ◌↔◌, IsTrue};
ghost use Rattle.nj_formula.specs.Meaning.{meaning};

use crate::argument::Argument;
use crate::formula::Formula;

impl Argument {
    /// Whether both are the same: the same names and places, put together alike.
    #[cycle(same_arguments)]
    pub fn same(&self, other: &Argument) -> bool
        ensures { IsTrue result ↔ (self.now ≡ other.now) }
    {
        match (self, other) {
            (Argument::Free(x), Argument::Free(y)) => x.is(y.as_str()),
            (Argument::Bound(i), Argument::Bound(j)) => *i == *j,
            (Argument::Apply(f, xs), Argument::Apply(g, ys)) => {
                f.is(g.as_str()) && same_arguments(xs.get().as_slice(), ys.get().as_slice())
            }
            _ => false,
        }
    }
}

#[cycle(same_arguments)]
fn same_arguments(xs: &[Argument], ys: &[Argument]) -> bool
    ensures { IsTrue result ↔ (xs.now ≡ ys.now) }
{
    if xs.len() != ys.len() {
        return false;
    }
    for (i, x) in xs.iter().enumerate() {
        if !x.same(&ys[i]) {
            return false;
        }
    }
    true
}

impl Formula {
    /// Whether both say the same: equality up to bound names.
    pub fn same(&self, other: &Formula) -> bool
        ensures { IsTrue result ↔ (meaning self.now ≡ meaning other.now) }
    {
        match (self, other) {
            (Formula::False, Formula::False) => true,
            (Formula::Atom(p, xs), Formula::Atom(q, ys)) => {
                p.is(q.as_str()) && same_arguments(xs.get().as_slice(), ys.get().as_slice())
            }
            (Formula::Not(a), Formula::Not(b)) => a.get().same(b.get()),
            (Formula::And(a, c), Formula::And(b, d)) => a.get().same(b.get())
                && c.get().same(d.get()),
            (Formula::Or(a, c), Formula::Or(b, d)) => a.get().same(b.get())
                && c.get().same(d.get()),
            (Formula::Implies(a, c), Formula::Implies(b, d)) => {
                a.get().same(b.get()) && c.get().same(d.get())
            }
            (Formula::All(_, a), Formula::All(_, b)) => a.get().same(b.get()),
            (Formula::Exists(_, a), Formula::Exists(_, b)) => a.get().same(b.get()),
            _ => false,
        }
    }
}
