//! The reply that tells what came of a part.
ghost use Rattle.std.specs.Prelude.{◌≡◌, IfOk};
ghost use Rattle.reply_messages.specs.declared.told.Told.TheVariants as tells;
ghost use Rattle.session_rules.specs.Shown.{protocol_reports};
ghost use Rattle.session_replies.specs.Spelling.{reply_spelling};

use message_values::Protocol;
use pide_base::Part;
use reply_messages::Reports;
use report_markup::Report;
use std::alloc::{AllocError, Global};
use symbol_markup::reports_in_symbols;

/// The reply that tells what came of a part. `source` is its command's.
pub fn report(
    alloc: Global,
    protocol: Protocol,
    part: Part,
    source: &[char],
    reports: &[Report],
) -> Result<Vec<u8>, AllocError>
    ensures { IfOk result (λ bytes. bytes.items
        ≡ reply_spelling (tells.Report part (protocol_reports protocol source.now reports.now))) }
{
    match protocol {
        Protocol::Scalars => { reply_messages::report(alloc, part, Reports::Own(reports)) }
        Protocol::Symbols => {
            let told = reports_in_symbols(alloc, source, reports)?;
            reply_messages::report(alloc, part, Reports::Shown(&told))
        }
    }
}
