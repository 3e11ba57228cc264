ghost use Rattle.std.specs.Prelude.{◌≡◌, reverse, IfOk, nat_lt, if◌then◌else◌, Ok, Err};
ghost use Rattle.nj_syntax.specs.Tokens.{cut_of};
ghost use Rattle.nj_syntax.specs.declared.fault.FormulaFault.TheVariants.{TooDeep};
ghost use Rattle.nj_syntax.specs.Deepest.{deepest};
ghost use Rattle.nj_syntax.specs.Steps.{formula_at, term_at, alone, step};
ghost use Rattle.nj_syntax.specs.Answer.{stepped_state, read_from};
ghost use Rattle.nj_syntax.specs.Seen.{seen, Gives, seen_end};

use crate::fault::{FaultKind, FormulaFault};
use crate::lex::Lexer;
use crate::reduce::finished;
use crate::state::{Mode, Pending, State, Step};
use crate::token::{Next, Placed};
use nj_formula::{Argument, Formula};
use sqlite_items::Items;
use std::alloc::{AllocError, Global};

/// Under how many operators, quantifiers and parentheses a token may stand.
const DEEPEST: usize = 200;

/// Where the reading stands after all tokens of a text.
#[derive(Drop)]
pub struct End {
    pub state: State,
    /// The text's length, or the first scalar with which no token begins.
    pub stop: usize,
    /// Whether the whole text is tokens and blanks.
    pub whole: bool,
}

impl State {
    /// Reads on over the tokens of the text, up to the first of them that is at fault.
    pub fn read(self, alloc: Global, text: &[char]) -> Result<End, FormulaFault>
        ensures { Gives seen_end result (read_from (seen self) (cut_of text.now)) }
    {
        let lexer = Lexer::new(alloc);
        self.read_by(&lexer, alloc, text)
    }

    fn read_by(self, lexer: &Lexer, alloc: Global, text: &[char]) -> Result<End, FormulaFault>
        ensures { Gives seen_end result (read_from (seen self) (cut_of text.now)) }
    {
        let mut state = self;
        let mut at = 0;
        'tokens: loop {
            match lexer.next(text, at)? {
                Next::Token(placed, behind) => {
                    state = state.after(alloc, &placed)?;
                    at = behind;
                }
                Next::Stray(stop) => {
                    return Ok(End {
                        state,
                        stop,
                        whole: false,
                    });
                }
                Next::End => {
                    return Ok(End {
                        state,
                        stop: text.len(),
                        whole: true,
                    });
                }
            }
        }
    }

    /// The state after one more token of the text.
    fn after(self, alloc: Global, placed: &Placed) -> Result<State, FormulaFault>
        ensures { Gives seen result (stepped_state placed.now (step (seen self) placed.now.token)) }
    {
        let Some(step) = self.step(alloc, &placed.token)? else {
            return Err(FormulaFault::At {
                pos: placed.at,
                kind: FaultKind::Expected,
            });
        };
        step.in_reach()
    }

    /// The formula, where the text may end here.
    pub fn formula(self, alloc: Global) -> Result<Option<Formula>, AllocError>
        ensures { IfOk result (λ f. f ≡ formula_at (seen self)) }
    {
        let State { mode, pending } = self;
        match mode {
            Mode::Atom(name) => {
                let atom = Formula::atom(alloc, name, Items::new(alloc))?;
                finished(alloc, pending, atom)
            }
            Mode::Operator(a) => finished(alloc, pending, a),
            _ => Ok(None),
        }
    }

    /// The term, where the text may end here.
    pub fn term(self) -> Option<Argument>
        ensures { result ≡ term_at (seen self) }
    {
        let State { mode, pending } = self;
        match mode {
            Mode::Head(name) => alone(pending, Argument::Free(name)),
            Mode::Comma(argument) => alone(pending, argument),
            _ => None,
        }
    }
}

impl Step {
    /// The state, unless the token stands too deep.
    fn in_reach(self) -> Result<State, FormulaFault>
        ensures { Gives seen result
            (if nat_lt deepest self.depth then Err TooDeep else Ok (seen self.state)) }
    {
        if self.depth > DEEPEST {
            return Err(FormulaFault::TooDeep);
        }
        Ok(self.state)
    }
}

/// The term, where nothing is pending.
fn alone(pending: Items<Pending>, term: Argument) -> Option<Argument>
    ensures { result ≡ alone (reverse pending) term }
{
    if pending.is_empty() { Some(term) } else { None }
}
