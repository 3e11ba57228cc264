ghost use Rattle.std.specs.Prelude.{◌≡◌, map};
ghost use Rattle.std.specs.List.{list_any};
ghost use Rattle.nj_formula.specs.Meaning.{meaning};
ghost use Rattle.nj_formula.specs.Free.{is_free_in, is_free};

use crate::argument::Argument;
use crate::formula::Formula;

impl Argument {
    /// Whether the name stands in it. The head of a function is no name in this sense.
    #[cycle(free)]
    pub fn has_free(&self, name: &str) -> bool
        ensures { result ≡ is_free_in name.now self.now }
    {
        match self {
            Argument::Free(other) => other.is(name),
            Argument::Bound(_) => false,
            Argument::Apply(_, arguments) => any_has_free(arguments.get().as_slice(), name),
        }
    }
}

#[cycle(free)]
fn any_has_free(arguments: &[Argument], name: &str) -> bool
    ensures { result ≡ list_any (λ free. free) (map (is_free_in name.now) arguments.now) }
{
    for argument in arguments {
        if argument.has_free(name) {
            return true;
        }
    }
    false
}

impl Formula {
    /// Whether the name is free in it.
    pub fn has_free(&self, name: &str) -> bool
        ensures { result ≡ is_free name.now (meaning self.now) }
    {
        match self {
            Formula::False => false,
            Formula::Atom(_, arguments) => any_has_free(arguments.get().as_slice(), name),
            Formula::Not(a) | Formula::All(_, a) | Formula::Exists(_, a) => a.get().has_free(name),
            Formula::And(a, b) | Formula::Or(a, b) | Formula::Implies(a, b) => {
                a.get().has_free(name) || b.get().has_free(name)
            }
        }
    }
}
