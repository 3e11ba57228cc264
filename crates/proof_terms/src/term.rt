use nj_formula::{Formula, Name, ObjTerm, Shared};
use pide_base::Range;

/// A name that is cited, and its scalars in the source.
#[derive(Debug, Drop)]
pub struct Cite {
    pub name: Name,
    pub range: Range,
}

/// A proof term, whose parts are shared. What stands in a rule is what its text has, in that order.
pub enum Term {
    /// A fact by its name.
    Fact(Cite),
    /// `(conjI t u)`
    ConjI(Shared<Term>, Shared<Term>),
    /// `(conjE1 "B" t)`
    ConjE1(Shared<Formula>, Shared<Term>),
    /// `(conjE2 "A" t)`
    ConjE2(Shared<Formula>, Shared<Term>),
    /// `(disjI1 t)`
    DisjI1(Shared<Term>),
    /// `(disjI2 t)`
    DisjI2(Shared<Term>),
    /// `(disjE "A" "B" t x u y v)`
    DisjE(Shared<Formula>, Shared<Formula>, Shared<Term>, Name, Shared<Term>, Name, Shared<Term>),
    /// `(impI x t)`
    ImpI(Name, Shared<Term>),
    /// `(impE "A" t u)`
    ImpE(Shared<Formula>, Shared<Term>, Shared<Term>),
    /// `(notI x t)`
    NotI(Name, Shared<Term>),
    /// `(notE "A" t u)`
    NotE(Shared<Formula>, Shared<Term>, Shared<Term>),
    /// `(falseE t)`
    FalseE(Shared<Term>),
    /// `(allI x t)`
    AllI(Name, Shared<Term>),
    /// `(allE "ALL y. P" "s" t)`
    AllE(Shared<Formula>, Shared<ObjTerm>, Shared<Term>),
    /// `(exI "s" t)`
    ExI(Shared<ObjTerm>, Shared<Term>),
    /// `(exE "EX y. P" x h t u)`
    ExE(Shared<Formula>, Name, Name, Shared<Term>, Shared<Term>),
}

/// By hand, so that a term is let go by one call wherever it ends.
impl Drop for Term {
    fn drop(self) {
        match self {
            Term::Fact(_cite) => (),
            Term::DisjI1(t) | Term::DisjI2(t) | Term::FalseE(t) => drop(t),
            Term::ImpI(_name, t) | Term::NotI(_name, t) | Term::AllI(_name, t) => drop(t),
            Term::ConjE1(formula, t) | Term::ConjE2(formula, t) => {
                drop(formula);
                drop(t);
            }
            Term::ConjI(t, u) => {
                drop(t);
                drop(u);
            }
            Term::ImpE(formula, t, u) | Term::NotE(formula, t, u) => {
                drop(formula);
                drop(t);
                drop(u);
            }
            Term::DisjE(a, b, t, _x, u, _y, v) => {
                drop(a);
                drop(b);
                drop(t);
                drop(u);
                drop(v);
            }
            Term::AllE(formula, s, t) => {
                drop(formula);
                drop(s);
                drop(t);
            }
            Term::ExI(s, t) => {
                drop(s);
                drop(t);
            }
            Term::ExE(formula, _x, _h, t, u) => {
                drop(formula);
                drop(t);
                drop(u);
            }
        }
    }
}
