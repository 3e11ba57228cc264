//! Names of commands and keywords.

ghost use Rattle.std.specs.Prelude.{◌≡◌};
ghost use Rattle.std.specs.List.{list_any};
ghost use Rattle.outer_syntax.specs.Words.{same, is_inner_command, is_base_command, is_minor_keyword, is_in_force, kind_of};

use crate::bracket::Bracket;
use crate::kind::Kind;
use crate::row::Row;
use sqlite_items::Items;

/// Whether both are the same scalars.
fn same(word: &[char], other: &[char]) -> bool
    ensures { result ≡ same word.now other.now }
{
    if word.len() != other.len() {
        return false;
    }
    for i in 0..word.len() {
        if word[i] != other[i] {
            return false;
        }
    }
    true
}

/// Whether the word is this name, in ASCII.
pub fn spells(word: &[char], name: &str) -> bool
    ensures { result ≡ same word.now name.now }
{
    let bytes = name.as_bytes();
    if word.len() != bytes.len() {
        return false;
    }
    for i in 0..word.len() {
        if word[i] as u32 != bytes[i] as u32 {
            return false;
        }
    }
    true
}

/// Whether the word is a command of the language that stands within a theory: any but `theory` and
/// `end`.
pub fn is_inner_command(word: &[char]) -> bool
    ensures { result ≡ is_inner_command word.now }
{
    spells(word, "axiom")
        || spells(word, "lemma")
        || spells(word, "load")
        || spells(word, "proof")
        || spells(word, "fix")
        || spells(word, "assume")
        || spells(word, "have")
        || spells(word, "show")
        || spells(word, "next")
        || spells(word, "qed")
        || spells(word, "by")
}

/// Whether the word is a command name of the language.
fn is_base_command(word: &[char]) -> bool
    ensures { result ≡ is_base_command word.now }
{
    spells(word, "theory") || spells(word, "end") || is_inner_command(word)
}

/// Whether the word is a minor keyword.
fn is_minor_keyword(word: &[char]) -> bool
    ensures { result ≡ is_minor_keyword word.now }
{
    spells(word, "imports") || spells(word, "keywords") || spells(word, "begin")
}

/// Whether the word is one of the aliases.
fn is_alias(aliases: &[Items<char>], word: &[char]) -> bool
    ensures { result ≡ list_any (same word.now) aliases.now }
{
    for alias in aliases {
        if same(word, alias.as_slice()) {
            return true;
        }
    }
    false
}

/// Whether the word is a command name where these names are in force beside the language's own.
fn is_in_force(names: &[Items<char>], word: &[char]) -> bool
    ensures { result ≡ is_in_force names.now word.now }
{
    is_base_command(word) || is_alias(names, word)
}

/// The kind of a row's token of these scalars, where these names are in force.
pub fn kind_of(names: &[Items<char>], row: Row, word: &[char]) -> Kind
    ensures { result ≡ kind_of (is_in_force names.now) row word.now }
{
    match row {
        Row::Space => Kind::Space,
        Row::Enclosed(Bracket::Comment) => Kind::Comment,
        Row::Enclosed(Bracket::String) => Kind::String,
        Row::Enclosed(Bracket::Cartouche) => Kind::Cartouche,
        Row::Error => Kind::Error,
        Row::Symbol => Kind::Symbol,
        Row::LongIdent => Kind::LongIdent,
        Row::Word => {
            if is_in_force(names, word) {
                Kind::Command
            } else if is_minor_keyword(word) {
                Kind::Keyword
            } else {
                Kind::Ident
            }
        }
        Row::Sym => Kind::Sym,
    }
}
