//! Who hears what is replied.

/// Hears the replies, each before it is written.
pub trait Listener {
    ghost use Rattle.std.specs.Prelude.{List, ℕ, [], ◌∷◌, ◌++◌};

    /// From the one to the other it heard these replies, and nothing else.
    ghost hears: { Self → List (List ℕ) → Self → Type 0 };

    /// Hears a reply, which has these bytes.
    fn hear(&mut self, reply: &[u8])
        ensures { hears self.old (reply.now ∷ []) self.new };

    /// It may have heard none.
    ghost stays: { (a : Self) → hears a [] a };

    /// Replies are heard one after the other.
    ghost hears_on: { (a b c : Self) (first then : List (List ℕ))
        → hears a first b → hears b then c → hears a (first ++ then) c };
}

/// Nobody listens.
#[derive(Drop)]
pub(crate) struct Nobody;

impl Listener for Nobody {
    ghost hears = { λ a replies b. Unit {0} };

    fn hear(&mut self, _: &[u8]) {}

    ghost stays = { λ a. tt };

    ghost hears_on = { λ a b c first then one more. tt };
}
