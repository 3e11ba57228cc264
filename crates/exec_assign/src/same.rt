//! Keys that are the same.
ghost use Rattle.std.specs.Prelude.{◌≡◌};
ghost use Rattle.exec_rules.specs.Keys.{same_last, same_lasts, same_key};

use exec_rules::{Key, Last};

/// Whether both keys are the same.
pub(crate) fn same_key(one: &Key, other: &Key) -> bool
    ensures { result ≡ same_key one.now other.now }
{
    match (one, other) {
        (Key::Lasts(one), Key::Lasts(other)) => same_lasts(one.as_slice(), other.as_slice()),
        (Key::BadImport(one), Key::BadImport(other)) => {
            one.as_slice().cmp(other.as_slice()).is_eq()
        }
        _ => false,
    }
}

fn same_lasts(one: &[Last], other: &[Last]) -> bool
    ensures { result ≡ same_lasts one.now other.now }
{
    if one.len() != other.len() {
        return false;
    }
    'lasts: for place in 0..one.len() {
        if !same_last(&one[place], &other[place]) {
            return false;
        }
    }
    true
}

fn same_last(one: &Last, other: &Last) -> bool
    ensures { result ≡ same_last one.now other.now }
{
    match (one, other) {
        (Last::Empty, Last::Empty) | (Last::Open, Last::Open) => true,
        (Last::Made(one), Last::Made(other)) => one == other,
        _ => false,
    }
}
