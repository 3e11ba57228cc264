//! How far the header of a text has been read, word by word.

ghost use Rattle.std.specs.Prelude.{◌≡◌, if◌then◌else◌};
ghost use Rattle.outer_syntax.specs.Stages.{is_this_keyword, after_imports, after_word, after_token, given};

use crate::kind::{Kind, is_proper};
use crate::token::{Token, scalars};
use crate::word::spells;
use sqlite_items::Items;

/// How far a header has been read, told by what was read last.
#[derive(Clone, Copy, Debug, PartialEq, Eq)]
pub enum Stage {
    /// Nothing yet.
    Start,
    Theory,
    Name,
    Imports,
    /// The name of an import.
    Import,
    Keywords,
    /// The name of a keyword pair.
    PairName,
    Equals,
    /// The string of a keyword pair.
    Pair,
    /// The `begin` with which the header ends.
    Ended,
    /// What no header has there: the text has none.
    Absent,
}

/// The stage where the test passes; there is no header where it doesn't.
fn stage_if(test: bool, stage: Stage) -> Stage
    ensures { result ≡ (if test then stage else Stage.Absent) }
{
    if test { stage } else { Stage::Absent }
}

/// Whether the word is this minor keyword.
fn is_this_keyword(kind: Kind, word: &[char], name: &str) -> bool
    ensures { result ≡ is_this_keyword name.now (kind, word.now) }
{
    matches!(kind, Kind::Keyword) && spells(word, name)
}

/// How far the header goes with what may come after the imports.
fn after_imports(kind: Kind, word: &[char]) -> Stage
    ensures { result ≡ after_imports (kind, word.now) }
{
    if is_this_keyword(kind, word, "keywords") {
        Stage::Keywords
    } else {
        stage_if(is_this_keyword(kind, word, "begin"), Stage::Ended)
    }
}

/// How far a header has been read after one word more.
fn after_word(stage: Stage, kind: Kind, word: &[char]) -> Stage
    ensures { result ≡ after_word stage (kind, word.now) }
{
    let name = matches!(kind, Kind::Ident);
    match stage {
        Stage::Start => stage_if(
            matches!(kind, Kind::Command) && spells(word, "theory"),
            Stage::Theory,
        ),
        Stage::Theory => stage_if(name, Stage::Name),
        Stage::Name if is_this_keyword(kind, word, "imports") => Stage::Imports,
        Stage::Name => after_imports(kind, word),
        Stage::Imports => stage_if(name, Stage::Import),
        Stage::Import if name => Stage::Import,
        Stage::Import => after_imports(kind, word),
        Stage::Keywords => stage_if(name, Stage::PairName),
        Stage::PairName => stage_if(
            matches!(kind, Kind::Sym) && spells(word, "="),
            Stage::Equals,
        ),
        Stage::Equals => stage_if(matches!(kind, Kind::String), Stage::Pair),
        Stage::Pair if name => Stage::PairName,
        Stage::Pair => stage_if(is_this_keyword(kind, word, "begin"), Stage::Ended),
        Stage::Ended => Stage::Ended,
        Stage::Absent => Stage::Absent,
    }
}

/// How far the header of the text has been read after one token more: improper ones don't count.
pub fn after_token(text: &[char], stage: Stage, token: Token) -> Stage
    ensures { result ≡ after_token text.now stage token }
{
    if matches!(stage, Stage::Ended | Stage::Absent) || !is_proper(token.kind) {
        return stage;
    }
    after_word(stage, token.kind, scalars(text, token.range))
}

/// The aliases that are in force after what has been read: all where the header has ended, else
/// none.
pub fn given(stage: Stage, aliases: &[Items<char>]) -> &[Items<char>]
    ensures { result.now ≡ given stage aliases.now }
{
    match stage {
        Stage::Ended => aliases,
        _ => &[],
    }
}
