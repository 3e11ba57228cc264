//! The commands that a node had before.
ghost use Rattle.std.specs.Prelude.{◌≡◌, IfOk};
ghost use Rattle.editor_buffer.specs.Commands.{sources_in};

use crate::source::Source;
use doc_nodes::Entry;
use outer_syntax::scalars;
use std::alloc::{AllocError, Global};

/// The commands that a node had, lent with the text that they stand in. No commands are none of it.
#[derive(Drop)]
pub struct OldCommands<'a> {
    /// The text, in scalars.
    pub text: &'a [char],
    /// The commands, in the order of their places.
    pub entries: &'a [Entry],
    /// Whether they ask for the blobs that they ask for under the aliases that are in force now. It
    /// may be false where they do.
    pub same_aliases: bool,
}

impl<'a> OldCommands<'a> {
    /// Their sources.
    pub fn sources(&self, alloc: Global) -> Result<Vec<Source<'a>>, AllocError>
        ensures { IfOk result
            (λ all. all.items ≡ sources_in self.now.text.now self.now.entries.now) }
    {
        let mut all = Vec::with_capacity(alloc, self.entries.len())?;
        let mut rest = self.entries;
        'entries: while let [entry, more @ ..] = rest {
            all.push(Source::of(scalars(self.text, entry.range)))?;
            rest = more;
        }
        Ok(all)
    }
}
