//! Proof terms read from tokens.

ghost use Rattle.std.specs.Prelude.{◌≡◌};
ghost use Rattle.proof_terms.specs.Marks.{marks};
ghost use Rattle.proof_terms.specs.Reading.{Gives, deepest, read_term, read_rule, read_inside};
ghost use Rattle.proof_terms.specs.Answers.{Told};

use crate::fault::{TermError, TermFault};
use crate::reader::{Reader, Start, malformed};
use crate::term::Term;
use nj_formula::Shared;
use nj_kernel::Rule;
use outer_syntax::Token;
use std::alloc::Global;

/// How many rules may be nested in a proof term.
#[tactic(auto, unfolding(crate::specs::Reading::deepest))]
pub fn deepest() -> usize
    ensures { result ≡ deepest }
{
    200
}

/// The proof term that the proper tokens of the source are, all of them. The faults are told in
/// this order, from the left: a token with which no term goes on (`Malformed`, as where the tokens
/// end too early or go on behind the term), a quoted text that is no formula or no term
/// (`BadFormula`, `FormulaTooDeep`), and the name of a rule that stands in `deepest` others
/// (`ProofTooDeep`). It looks no further than the fault.
pub fn read(alloc: Global, source: &[char], tokens: &[Token]) -> Result<Term, TermError>
    ensures { Told (marks source.now tokens.now) result }
{
    let mut reader = Reader {
        alloc,
        source,
        rest: tokens,
    };
    let term = reader.term(deepest())?;
    if reader.rest.is_empty() {
        Ok(term)
    } else {
        drop(term);
        Err(malformed())
    }
}

impl<'a> Reader<'a> {
    /// A term in which at most so many rules are nested.
    #[cycle(term)]
    fn term(&mut self, left: usize) -> Result<Term, TermError>
        ensures { Gives result (marks self.new.source.now self.new.rest.now)
            (read_term left (marks self.old.source.now self.old.rest.now)) }
    {
        match self.start()? {
            Start::Fact(cite) => Ok(Term::Fact(cite)),
            Start::Rule(rule) => {
                if left == 0 {
                    return Err(TermError::Fault(TermFault::ProofTooDeep));
                }
                self.ruled(rule, left - 1)
            }
        }
    }

    /// A rule behind its name.
    #[cycle(term)]
    fn ruled(&mut self, rule: Rule, left: usize) -> Result<Term, TermError>
        ensures { Gives result (marks self.new.source.now self.new.rest.now)
            (read_rule (read_term left) rule (marks self.old.source.now self.old.rest.now)) }
    {
        let term = self.inside(rule, left)?;
        match self.close() {
            Ok(()) => Ok(term),
            Err(fault) => {
                drop(term);
                Err(fault)
            }
        }
    }

    /// A term in a rule.
    #[cycle(term)]
    pub(crate) fn part(&mut self, left: usize) -> Result<Shared<Term>, TermError>
        ensures { Gives result (marks self.new.source.now self.new.rest.now)
            (read_term left (marks self.old.source.now self.old.rest.now)) }
    {
        let term = self.term(left)?;
        Ok(Shared::new(self.alloc, term)?)
    }

    /// What stands in a rule behind its name.
    #[cycle(term)]
    fn inside(&mut self, rule: Rule, left: usize) -> Result<Term, TermError>
        ensures { Gives result (marks self.new.source.now self.new.rest.now)
            (read_inside (read_term left) rule (marks self.old.source.now self.old.rest.now)) }
    {
        match rule {
            Rule::DisjI1 => Ok(Term::DisjI1(self.part(left)?)),
            Rule::DisjI2 => Ok(Term::DisjI2(self.part(left)?)),
            Rule::FalseE => Ok(Term::FalseE(self.part(left)?)),
            Rule::ConjI => self.conj_i(left),
            Rule::ConjE1 => self.conj_e1(left),
            Rule::ConjE2 => self.conj_e2(left),
            Rule::DisjE => self.disj_e(left),
            Rule::ImpI => self.imp_i(left),
            Rule::ImpE => self.imp_e(left),
            Rule::NotI => self.not_i(left),
            Rule::NotE => self.not_e(left),
            Rule::AllI => self.all_i(left),
            Rule::AllE => self.all_e(left),
            Rule::ExI => self.ex_i(left),
            Rule::ExE => self.ex_e(left),
        }
    }
}
