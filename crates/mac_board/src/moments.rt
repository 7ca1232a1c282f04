//! Clocks that keep what they told.

ghost use Rattle.std.specs.Prelude.{◌≡◌, ◌++◌, ◌∷◌, [], ℕ, List, Option};

/// A clock, which tells the seconds since 1970.
pub trait Moments {
    /// The moments that it told so far.
    ghost told: { Self → List (Option ℕ) };

    /// The moment of now, if it can be told.
    fn tell(&mut self) -> Option<u64>
        ensures { told self.new ≡ told self.old ++ result ∷ [] };
}
