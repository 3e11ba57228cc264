//! Numbers in decimal.
ghost use Rattle.std.specs.Prelude.{◌≡◌, decimal};
ghost use Rattle.reply_messages.specs.Fits.{IsWide};
ghost use Rattle.reply_messages.specs.Found.{Finds};

use xml_codec::number_of;

/// The number of 64 bits whose decimal the bytes are.
pub(crate) fn number_at(bytes: &[u8]) -> Option<u64>
    ensures { Finds decimal IsWide bytes.now result }
{
    match str::from_utf8(bytes) {
        Ok(text) => number_of(text),
        Err(_) => None,
    }
}
