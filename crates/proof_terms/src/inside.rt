//! What stands in each rule that has several parts, read from the left.

ghost use Rattle.std.specs.Prelude.{◌≡◌};
ghost use Rattle.nj_kernel.specs.declared.rule.Rule.TheVariants as R;
ghost use Rattle.proof_terms.specs.Marks.{marks};
ghost use Rattle.proof_terms.specs.Reading.{Gives, read_term, read_inside};

use crate::fault::TermError;
use crate::reader::Reader;
use crate::term::Term;

impl<'a> Reader<'a> {
    #[cycle(term)]
    pub(crate) fn conj_i(&mut self, left: usize) -> Result<Term, TermError>
        ensures { Gives result (marks self.new.source.now self.new.rest.now)
            (read_inside (read_term left) R.ConjI (marks self.old.source.now self.old.rest.now)) }
    {
        Ok(Term::ConjI(self.part(left)?, self.part(left)?))
    }

    #[cycle(term)]
    pub(crate) fn conj_e1(&mut self, left: usize) -> Result<Term, TermError>
        ensures { Gives result (marks self.new.source.now self.new.rest.now)
            (read_inside (read_term left) R.ConjE1 (marks self.old.source.now self.old.rest.now)) }
    {
        Ok(Term::ConjE1(self.formula()?, self.part(left)?))
    }

    #[cycle(term)]
    pub(crate) fn conj_e2(&mut self, left: usize) -> Result<Term, TermError>
        ensures { Gives result (marks self.new.source.now self.new.rest.now)
            (read_inside (read_term left) R.ConjE2 (marks self.old.source.now self.old.rest.now)) }
    {
        Ok(Term::ConjE2(self.formula()?, self.part(left)?))
    }

    #[cycle(term)]
    pub(crate) fn disj_e(&mut self, left: usize) -> Result<Term, TermError>
        ensures { Gives result (marks self.new.source.now self.new.rest.now)
            (read_inside (read_term left) R.DisjE (marks self.old.source.now self.old.rest.now)) }
    {
        Ok(Term::DisjE(
            self.formula()?,
            self.formula()?,
            self.part(left)?,
            self.name()?,
            self.part(left)?,
            self.name()?,
            self.part(left)?,
        ))
    }

    #[cycle(term)]
    pub(crate) fn imp_i(&mut self, left: usize) -> Result<Term, TermError>
        ensures { Gives result (marks self.new.source.now self.new.rest.now)
            (read_inside (read_term left) R.ImpI (marks self.old.source.now self.old.rest.now)) }
    {
        Ok(Term::ImpI(self.name()?, self.part(left)?))
    }

    #[cycle(term)]
    pub(crate) fn imp_e(&mut self, left: usize) -> Result<Term, TermError>
        ensures { Gives result (marks self.new.source.now self.new.rest.now)
            (read_inside (read_term left) R.ImpE (marks self.old.source.now self.old.rest.now)) }
    {
        Ok(Term::ImpE(self.formula()?, self.part(left)?, self.part(left)?))
    }

    #[cycle(term)]
    pub(crate) fn not_i(&mut self, left: usize) -> Result<Term, TermError>
        ensures { Gives result (marks self.new.source.now self.new.rest.now)
            (read_inside (read_term left) R.NotI (marks self.old.source.now self.old.rest.now)) }
    {
        Ok(Term::NotI(self.name()?, self.part(left)?))
    }

    #[cycle(term)]
    pub(crate) fn not_e(&mut self, left: usize) -> Result<Term, TermError>
        ensures { Gives result (marks self.new.source.now self.new.rest.now)
            (read_inside (read_term left) R.NotE (marks self.old.source.now self.old.rest.now)) }
    {
        Ok(Term::NotE(self.formula()?, self.part(left)?, self.part(left)?))
    }

    #[cycle(term)]
    pub(crate) fn all_i(&mut self, left: usize) -> Result<Term, TermError>
        ensures { Gives result (marks self.new.source.now self.new.rest.now)
            (read_inside (read_term left) R.AllI (marks self.old.source.now self.old.rest.now)) }
    {
        Ok(Term::AllI(self.name()?, self.part(left)?))
    }

    #[cycle(term)]
    pub(crate) fn all_e(&mut self, left: usize) -> Result<Term, TermError>
        ensures { Gives result (marks self.new.source.now self.new.rest.now)
            (read_inside (read_term left) R.AllE (marks self.old.source.now self.old.rest.now)) }
    {
        Ok(Term::AllE(self.formula()?, self.object()?, self.part(left)?))
    }

    #[cycle(term)]
    pub(crate) fn ex_i(&mut self, left: usize) -> Result<Term, TermError>
        ensures { Gives result (marks self.new.source.now self.new.rest.now)
            (read_inside (read_term left) R.ExI (marks self.old.source.now self.old.rest.now)) }
    {
        Ok(Term::ExI(self.object()?, self.part(left)?))
    }

    #[cycle(term)]
    pub(crate) fn ex_e(&mut self, left: usize) -> Result<Term, TermError>
        ensures { Gives result (marks self.new.source.now self.new.rest.now)
            (read_inside (read_term left) R.ExE (marks self.old.source.now self.old.rest.now)) }
    {
        Ok(Term::ExE(
            self.formula()?,
            self.name()?,
            self.name()?,
            self.part(left)?,
            self.part(left)?,
        ))
    }
}
