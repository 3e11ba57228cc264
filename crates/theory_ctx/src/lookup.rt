use nj_formula::{Formula, Name};
use std::fmt;

/// A fact's theory and name, as `T.n`.
#[derive(Clone, Copy, Debug)]
pub struct LongName<'a> {
    pub theory: &'a str,
    pub name: &'a str,
}

impl fmt::Display for LongName<'_> {
    ghost use Rattle.std.specs.Prelude.{Some};
    ghost use Rattle.theory_ctx.specs.Spelled.{long_name};

    ghost output = { λ fact. Some (long_name fact.theory.now fact.name.now) };

    fn fmt<W: fmt::Write>(&self, f: &mut fmt::Formatter<W>) -> fmt::Result {
        let theory = self.theory;
        let name = self.name;
        write!(f, "{theory}.{name}")
    }
}

/// What a name means. Facts are lent, so that a lookup takes no memory.
#[derive(Clone, Copy, Debug)]
pub enum Lookup<'a> {
    /// One fact. A local fact has no theory.
    Found {
        theory: Option<&'a Name>,
        name: &'a Name,
        formula: &'a Formula,
    },
    /// There is no fact of this name.
    Unknown,
    /// Several imported theories have a fact of this name: the first two, by the theories' names.
    Ambiguous {
        first: LongName<'a>,
        second: LongName<'a>,
    },
}
