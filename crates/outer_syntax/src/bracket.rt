//! Comments, strings and cartouches.

ghost use Rattle.std.specs.Prelude.{◌≡◌, ◌<◌, ◌≤◌, ◌+◌, ◌^◌, ◌++◌, ℕ, List, length, drop, MatchOption};
ghost use Rattle.text_words.specs.Longest.{FindsLongest};
ghost use Rattle.outer_syntax.specs.Brackets.{opening, piece, after, ClosesText};
ghost use Rattle.outer_syntax.specs.Rows.{IsFirstRow};

use crate::row::Row;

const COMMENT_OPEN: [char; 2] = ['(', '*'];

const COMMENT_CLOSE: [char; 2] = ['*', ')'];

const QUOTE: [char; 1] = ['"'];

const CARTOUCHE_OPEN: [char; 7] = ['\\', '<', 'o', 'p', 'e', 'n', '>'];

const CARTOUCHE_CLOSE: [char; 8] = ['\\', '<', 'c', 'l', 'o', 's', 'e', '>'];

/// What encloses a text up to its own end.
#[derive(Clone, Copy, Debug, PartialEq, Eq)]
pub enum Bracket {
    Comment,
    String,
    Cartouche,
}

/// What a piece of an enclosed text does.
#[derive(Clone, Copy, Debug, PartialEq, Eq)]
pub enum Mark {
    Open,
    Close,
    Other,
}

/// The first piece of the text inside of a bracket, and how many scalars it has.
fn piece(bracket: Bracket, text: &[char]) -> (Mark, usize)
    ensures { result ≡ piece bracket text.now }
{
    match bracket {
        Bracket::Comment => {
            if text.starts_with(&COMMENT_OPEN) {
                (Mark::Open, 2)
            } else if text.starts_with(&COMMENT_CLOSE) {
                (Mark::Close, 2)
            } else {
                (Mark::Other, 1)
            }
        }
        Bracket::String => {
            if text.starts_with(&['\\']) {
                (Mark::Other, 2)
            } else if text.starts_with(&QUOTE) {
                (Mark::Close, 1)
            } else {
                (Mark::Other, 1)
            }
        }
        Bracket::Cartouche => {
            if text.starts_with(&CARTOUCHE_OPEN) {
                (Mark::Open, 7)
            } else if text.starts_with(&CARTOUCHE_CLOSE) {
                (Mark::Close, 8)
            } else {
                (Mark::Other, 1)
            }
        }
    }
}

/// How many brackets are open after a piece.
fn after(mark: Mark, depth: usize) -> usize
    requires positive { 0 < depth }
    requires small { depth + 1 < 2 ^ 64 }
    ensures { result ≡ after mark depth }
{
    match mark {
        Mark::Open => depth + 1,
        Mark::Close => depth - 1,
        Mark::Other => depth,
    }
}

/// How many scalars there are up to the closing of one open bracket, with it.
fn inside_len(bracket: Bracket, inside: &[char]) -> Option<usize>
    ensures { FindsLongest (ClosesText bracket 1) inside.now result }
{
    let mut depth = 1usize;
    let mut at = 0;
    while at < inside.len() {
        let (mark, size) = piece(bracket, &inside[at..]);
        at += size;
        depth = after(mark, depth);
        if depth == 0 {
            return Some(at);
        }
    }
    None
}

/// How many scalars the opening of the bracket has, if the text begins with it.
fn opening_len(bracket: Bracket, text: &[char]) -> Option<usize>
    ensures { MatchOption result ((inside : List ℕ) → text.now ≡ opening bracket ++ inside → ⊥)
        (λ n. (n ≡ length (opening bracket)) × (n ≤ length text.now)
        × (text.now ≡ opening bracket ++ drop n text.now)) }
{
    let opening: &[char] = match bracket {
        Bracket::Comment => &COMMENT_OPEN,
        Bracket::String => &QUOTE,
        Bracket::Cartouche => &CARTOUCHE_OPEN,
    };
    if text.starts_with(opening) {
        Some(opening.len())
    } else {
        None
    }
}

/// The row of a text that begins with the opening of the bracket, and how many scalars it has: up
/// to the closing, or to the text's end where there is none.
pub fn bracket_row(bracket: Bracket, text: &[char]) -> Option<(Row, usize)>
    ensures { MatchOption result ((inside : List ℕ) → text.now ≡ opening bracket ++ inside → ⊥)
        (λ r. IsFirstRow text.now r.0 r.1) }
{
    match opening_len(bracket, text) {
        Some(n) => match inside_len(bracket, &text[n..]) {
            Some(m) => Some((Row::Enclosed(bracket), n + m)),
            None => Some((Row::Error, text.len())),
        },
        None => None,
    }
}
