//! The proper tokens of a command's source.
ghost use Rattle.std.specs.Prelude.{◌≡◌, [], IfOk};
ghost use Rattle.doc_nodes.specs.Needs.{source_tokens};
ghost use Rattle.isar_rules.specs.Steps.{aliases_at};

use doc_nodes::Aliases;
use isar_rules::Place;
use outer_syntax::{Token, proper_under};
use std::alloc::{AllocError, Global};

/// The aliases in force at the place: none at the beginning of a node.
pub(crate) fn aliases_at<'a>(place: &Place, aliases: &'a Aliases, none: &'a Aliases) -> &'a Aliases
    ensures { none.now ≡ [] → result.now ≡ aliases_at place.now aliases.now }
{
    match place {
        Place::Start { .. } => none,
        _ => aliases,
    }
}

/// The proper tokens of the source under the aliases.
pub(crate) fn source_tokens(
    alloc: Global,
    source: &[char],
    aliases: &Aliases,
) -> Result<Vec<Token>, AllocError>
    ensures { IfOk result (λ tokens. tokens.items ≡ source_tokens aliases.now source.now) }
{
    proper_under(alloc, source, aliases.names())
}
