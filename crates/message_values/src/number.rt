//! Numbers.
ghost use Rattle.std.specs.Prelude.{◌≡◌};
ghost use Rattle.message_values.specs.Numbers.{number_of};
ghost use Rattle.message_values.specs.Shapes.{index_of};

/// The smallest number of 19 digits.
const NUMBER_END: u64 = 1_000_000_000_000_000_000;

/// The number of at most 18 digits whose decimal the text is.
pub fn number_of(text: &str) -> Option<u64>
    ensures { result ≡ number_of text.now }
{
    match xml_codec::number_of(text) {
        Some(number) if number < NUMBER_END => Some(number),
        _ => None,
    }
}

/// The number below 2^64 whose decimal the text is.
pub(crate) fn index_of(text: &str) -> Option<u64>
    ensures { result ≡ index_of text.now }
{
    xml_codec::number_of(text)
}
