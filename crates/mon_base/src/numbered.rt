//! Values that are known by a number.

ghost use Rattle.std.specs.Prelude.{◌≡◌, ℕ};

/// A small value that is known by a number: two equal values have equal numbers, and the other way round.
pub trait Numbered {
    /// The number of a value.
    ghost number: { Self → ℕ };

    fn number(&self) -> u32
        ensures { result ≡ number self.now };

    /// Values that have one number are one.
    ghost exact: { (a b : Self) → number a ≡ number b → a ≡ b };
}
