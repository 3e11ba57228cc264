//! The reply that ends a build.
ghost use Rattle.std.specs.Prelude.{◌≡◌, IfOk};
ghost use Rattle.byte_message.specs.Stream.{plain_spelling};
ghost use Rattle.reply_messages.specs.declared.told.Told.TheVariants.{Total};
ghost use Rattle.reply_messages.specs.Replies.{reply_chunks};

use crate::chunk::Chunk;
use crate::message::spelled;
use std::alloc::{AllocError, Global};

pub(crate) fn total(alloc: Global, nodes: u64, errors: u64) -> Result<Vec<u8>, AllocError>
    ensures { IfOk result
        (λ bytes. bytes.items ≡ plain_spelling (reply_chunks (Total nodes errors))) }
{
    spelled(
        alloc,
        &[
            Chunk::Word("total"),
            Chunk::Number(nodes),
            Chunk::Number(errors),
        ],
    )
}
