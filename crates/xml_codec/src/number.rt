ghost use Rattle.std.specs.Prelude.{◌≡◌, ◌≢◌, ◌∷◌, List, MatchOption, ◌<◌, ◌^◌, ℕ, ℤ, pos, ◌==◌, ◌||◌, ◌&&◌, nat_lt, length, slice_index, IfSome, IfNone, IsTrue, ◌↔◌, decimal};
ghost use Rattle.std.specs.Fmt.{signed_decimal};
ghost use Rattle.xml_codec.specs.Data.{IsShort, int_end};

/// The greatest number of 18 digits.
const MAX_INT: i64 = 999_999_999_999_999_999;

/// Whether the number has at most 18 digits.
pub fn is_short(number: i64) -> bool
    ensures { IsTrue result ↔ IsShort number }
{
    -MAX_INT <= number && number <= MAX_INT
}

/// Whether the text begins with a `+`, or with a `0` before more.
fn is_padded(text: &str) -> bool
    ensures { result ≡ (slice_index text.now 0 == 43
        || (slice_index text.now 0 == 48 && nat_lt 1 (length text.now))) }
{
    let first = match text.as_bytes() {
        [first, ..] => *first,
        [] => 0,
    };
    first == b'+' || (first == b'0' && 1 < text.len())
}

/// The number of 64 bits whose decimal the text is. It reads the digits where they stand.
pub fn number_of(text: &str) -> Option<u64>
    ensures some { IfSome result (λ n. text.now ≡ decimal n) }
    ensures small { IfSome result (λ n. n < 2 ^ 64) }
    ensures none { IfNone result ((n : ℕ) → n < 2 ^ 64 → text.now ≢ decimal n) }
{
    if is_padded(text) {
        return None;
    }
    match text.parse::<u64>() {
        Ok(number) => Some(number),
        Err(_) => None,
    }
}

/// The number of at most 18 digits whose decimal the text is, which has no sign.
fn unsigned_of(text: &str) -> Option<i64>
    ensures some { IfSome result (λ n.
        (m : ℕ) × (n ≡ pos m) × (m < int_end) × (text.now ≡ decimal m)) }
    ensures none { IfNone result ((m : ℕ) → m < int_end → text.now ≢ decimal m) }
{
    match number_of(text) {
        Some(number) if number <= MAX_INT as u64 => Some(number as i64),
        _ => None,
    }
}

/// What follows a minus that stands first.
fn after_minus(text: &str) -> Option<&str>
    ensures { MatchOption result ((rest : List ℕ) → text.now ≢ 45 ∷ rest)
        (λ rest. text.now ≡ 45 ∷ rest.now) }
{
    text.strip_prefix('-')
}

/// The integer of at most 18 digits that is printed so.
pub(crate) fn int_of(text: &str) -> Option<i64>
    ensures some { IfSome result (λ n. IsShort n × (text.now ≡ signed_decimal n)) }
    ensures none { IfNone result ((n : ℤ) → IsShort n → text.now ≢ signed_decimal n) }
{
    match after_minus(text) {
        Some(digits) => match unsigned_of(digits) {
            Some(number) if number != 0 => Some(-number),
            _ => None,
        },
        None => unsigned_of(text),
    }
}
