//! Values that threads step in turns.

ghost use Rattle.std.specs.Prelude.{◌≡◌, ℕ, List, length};
ghost use Rattle.ruled_turn.specs.Entries.{Grows};

/// A value that stands for a base, which no step changes, and a list of entries, each with the
/// number that made it.
pub trait Turned {
    type Base;

    /// What an entry has beside its number.
    type Entry;

    type Answer;

    ghost base: { Self → Self.Base };

    ghost entries: { Self → List (ℕ × Self.Entry) };

    /// Which numbers may step.
    ghost admits: { Self.Base → ℕ → Type 0 };

    /// What a step of a number may answer, between the list before it and the list after it.
    ghost replies: { Self.Base → List (ℕ × Self.Entry) → ℕ → Self.Answer
        → List (ℕ × Self.Entry) → Type 0 };

    /// Adds one entry of `who`, or none.
    fn step(&mut self, who: u32) -> Self::Answer
        requires { admits (base self.old) who }
        ensures base { base self.new ≡ base self.old }
        ensures entries { Grows who (entries self.old) (entries self.new) }
        ensures answer { replies (base self.old) (entries self.old) who result (entries self.new) };

    /// The number of entries.
    fn length(&self) -> u64
        ensures { result ≡ length (entries self.now) };
}
