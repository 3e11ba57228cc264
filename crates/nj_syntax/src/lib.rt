//! Formulas and terms as texts: what a text is, or the first place at fault; and the text of each,
//! with the fewest parentheses, and with the least number of `'` behind a bound name with which it
//! captures none.
//!
//! The grammar and its priorities are in the manner of Isabelle's mixfix notation, identifiers and
//! blanks those of its outer syntax in ASCII; which texts are formulas, the depth of a token, the
//! faults and the printed form are this project's own. To know what is promised, read
//! `specs/Tokens.antt`, `specs/Terms.antt`, `specs/Grammar.antt` and `specs/Answers.antt`, and for
//! prints `specs/Prints.antt`; `specs/Reduced.antt`, `Steps.antt` and `Seen.antt` are the reader's
//! own way, and `specs/Answer.antt` and `specs/Printed.antt` are the same as functions.
//!
//! The reader goes once over the tokens, which are cut off as it needs them, and keeps what is
//! pending, so no call is nested as deeply as the text. It must not know of proofs, theories,
//! commands or who prints.
#![tactic(auto)]

mod arguments;
mod fault;
mod law;
mod lex;
mod names;
mod operands;
mod operator;
mod parsing;
mod print_arguments;
mod print_law;
mod printer;
mod priority;
mod read;
mod reduce;
mod state;
mod step;
mod text_law;
mod texts;
mod token;
mod token_law;

pub use fault::{FaultKind, FormulaFault};
pub use law::{one_answer, one_formula, one_term};
pub use lex::Lexer;
pub use operator::{Operator, Quantifier};
pub use parsing::{parse, parse_term};
pub use print_law::{
    fewest_parentheses, instances_are_spellable, one_print, parts_are_readable, print_is_parsed,
    prints_are_read, reads_back, term_reads_back,
};
pub use printer::{BodyPrint, print, print_body, print_term};
pub use text_law::one_formula_text;
pub use texts::formula_text;
pub use token::{Next, Placed, Token};
pub use token_law::one_cut;
