//! The command that a name stands for.
ghost use Rattle.std.specs.Prelude.{◌≡◌};
ghost use Rattle.doc_nodes.specs.Needs.{meant};

use crate::alias::Aliases;

/// The command that a name stands for: an alias's target, else the name itself.
pub fn meant<'a>(aliases: &'a Aliases, name: &'a [char]) -> &'a [char]
    ensures { result.now ≡ meant aliases.now name.now }
{
    match aliases.target_of(name) {
        Some(target) => target,
        None => name,
    }
}
