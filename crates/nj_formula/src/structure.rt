ghost use Rattle.std.specs.Prelude.{ℕ, List};

/// A structure of first-order logic: a domain, and what functions and predicates mean in it.
pub trait Structure {
    /// The points of the domain.
    type Point;

    /// The point that a function gives of its arguments.
    ghost apply: { List ℕ → List Self.Point → Self.Point };

    /// What a predicate claims of its arguments.
    ghost holds: { List ℕ → List Self.Point → Type 0 };
}
