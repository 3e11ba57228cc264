//! How places are counted in replies.
ghost use Rattle.std.specs.Prelude.{◌≡◌};
ghost use Rattle.message_values.specs.Protocols.{protocol_number, protocol_of};

/// The version of the protocol that a session goes by.
#[derive(Clone, Copy, Debug, PartialEq, Eq)]
pub enum Protocol {
    /// Places in replies count scalars from 0.
    Scalars,
    /// Places in replies count symbols from 1.
    Symbols,
}

impl Protocol {
    /// The protocol of this number, or None where it is neither 1 nor 2.
    pub fn new(number: u64) -> Option<Protocol>
        ensures { result ≡ protocol_of number }
    {
        match number {
            1 => Some(Protocol::Scalars),
            2 => Some(Protocol::Symbols),
            _ => None,
        }
    }

    /// Its number, 1 or 2.
    pub fn number(self) -> u64
        ensures { result ≡ protocol_number self }
    {
        match self {
            Protocol::Scalars => 1,
            Protocol::Symbols => 2,
        }
    }
}
