//! The outer syntax of a text (after Isabelle's): its symbols, which are `\<name>`, `\<^name>` or
//! one other scalar; its outer tokens, which are spaces, comments, strings, cartouches, symbols,
//! identifiers by the names of commands and keywords, single scalars, and what doesn't end; and the
//! header at its front, which has the theory's name, its imports and its keyword pairs.
//!
//! Texts are lists of Unicode scalars, and places count them from 0. A header is read off the
//! proper tokens, without aliases. It knows nothing of commands but their names, nor of nodes.
#![tactic(auto)]

mod blank;
mod boundaries;
mod bracket;
mod contents;
mod header_law;
mod kind;
mod law;
mod lexer;
mod long_name;
mod name;
mod parts;
mod place;
mod proper;
mod read;
mod renaming;
mod row;
mod stage;
mod symbol_laws;
mod token;
mod word;

pub use boundaries::{Boundaries, Inside};
pub use bracket::{Bracket, Mark};
pub use contents::content;
pub use header_law::one_header;
pub use kind::{Kind, is_proper};
pub use law::{one_list, symbol_law};
pub use lexer::{lex, lex_under, next_token};
pub use name::named_symbol;
pub use parts::{Header, KeywordPair};
pub use place::symbols;
pub use proper::{next_proper, proper_after, proper_under};
pub use read::{header, header_stop};
pub use renaming::renamed;
pub use row::Row;
pub use stage::{Stage, after_token, given};
pub use symbol_laws::{one_symbol_list, places_are_numbered};
pub use token::{Token, scalars};
pub use word::{is_inner_command, spells};
