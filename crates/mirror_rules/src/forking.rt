//! Which commands may fork.
ghost use Rattle.std.specs.Prelude.{◌≡◌, codes};
ghost use Rattle.doc_nodes.specs.Names.{equal};
ghost use Rattle.mirror_rules.specs.Forking.{is_by, may_fork};

use doc_nodes::{Aliases, meant};
use outer_syntax::{Kind, Token, next_proper, scalars};
use std::cmp::Ordering;

/// Whether the command of this source, in scalars, may fork: its first proper token is `by` or an
/// alias of it. Tokens behind that one aren't read.
pub fn may_fork(aliases: &Aliases, source: &[char]) -> bool
    ensures { result ≡ may_fork aliases.now source.now }
{
    match next_proper(source, aliases.names(), 0) {
        Some(first) => is_by(aliases, source, first),
        None => false,
    }
}

/// Whether the token is a name that stands for `by`.
fn is_by(aliases: &Aliases, source: &[char], name: Token) -> bool
    ensures { result ≡ is_by aliases.now source.now name }
{
    if name.kind != Kind::Command {
        return false;
    }
    spells_by(meant(aliases, scalars(source, name.range)))
}

fn spells_by(word: &[char]) -> bool
    ensures { result ≡ equal word.now (codes "by") }
{
    let by: &[char] = &['b', 'y'];
    match word.cmp(by) {
        Ordering::Equal => true,
        Ordering::Less | Ordering::Greater => false,
    }
}
