//! Replies about parts of executions: claimed, finished with reports, or given up.
ghost use Rattle.std.specs.Prelude.{◌≡◌, IfOk};
ghost use Rattle.byte_message.specs.Stream.{plain_spelling};
ghost use Rattle.reply_messages.specs.declared.told.Told.TheVariants.{Claimed, Report, Dropped};
ghost use Rattle.reply_messages.specs.Lent.{reports_of};
ghost use Rattle.reply_messages.specs.Replies.{reply_chunks};

use crate::chunk::{Chunk, part_word};
use crate::message::spelled;
use crate::reply::Reports;
use message_values::Worker;
use pide_base::Part;
use std::alloc::{AllocError, Global};

/// The reply that the worker took the part.
pub fn claimed(alloc: Global, worker: Worker, part: Part) -> Result<Vec<u8>, AllocError>
    ensures { IfOk result
        (λ bytes. bytes.items ≡ plain_spelling (reply_chunks (Claimed worker part))) }
{
    spelled(
        alloc,
        &[
            Chunk::Word("claimed"),
            Chunk::Number(worker.number()),
            Chunk::Number(part.exec.number()),
            Chunk::Word(part_word(part.kind)),
        ],
    )
}

/// The reply that the part is finished, with what it reports.
pub fn report(alloc: Global, part: Part, reports: Reports<'_>) -> Result<Vec<u8>, AllocError>
    ensures { IfOk result (λ bytes. bytes.items
        ≡ plain_spelling (reply_chunks (Report part (reports_of reports.entry)))) }
{
    spelled(
        alloc,
        &[
            Chunk::Word("report"),
            Chunk::Number(part.exec.number()),
            Chunk::Word(part_word(part.kind)),
            Chunk::Reports(reports),
        ],
    )
}

/// The reply that the part was let go.
pub fn dropped(alloc: Global, part: Part) -> Result<Vec<u8>, AllocError>
    ensures { IfOk result (λ bytes. bytes.items ≡ plain_spelling (reply_chunks (Dropped part))) }
{
    spelled(
        alloc,
        &[
            Chunk::Word("dropped"),
            Chunk::Number(part.exec.number()),
            Chunk::Word(part_word(part.kind)),
        ],
    )
}
