//! The order by which a caller gives the place of a seat, since the index keeps no keys.

/// A place in a list of seats: in front of all seats that are after it.
///
/// The caller keeps the keys by which seats are ordered, and says of which seats it has them.
pub trait Order {
    ghost use Rattle.std.specs.Prelude.{◌≡◌, ℕ, Bool};

    ghost knows: { Self → ℕ → Type 0 };

    ghost behind: { Self → ℕ → Bool };

    /// Whether a seat, whose keys are known, is after the place.
    fn is_behind(&self, seat: u32) -> bool
        requires { knows self.now seat }
        ensures { result ≡ behind self.now seat };
}
