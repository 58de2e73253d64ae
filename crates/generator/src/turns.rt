//! The seeded schedule of a number, turn by turn.

ghost use Rattle.std.specs.Prelude.{◌≡◌, ◌≤◌, [], ◌∷◌, MatchOption};
ghost use Rattle.std.specs.List.{AllByRecursion};
ghost use Rattle.generator.specs.Schedule.{seeded_turns};

use crate::words::{next_word, seeded};
use rand_pcg::Lcg64Xsh32;
use std::marker::Model;

/// The turns that are left of a seeded schedule. Contracts see it as the list of the boards that
/// have these turns.
#[derive(Drop)]
pub struct SeededTurns {
    generator: Lcg64Xsh32,
    boards: u8,
    left: u64,
}

impl Model for SeededTurns {
    ghost use Rattle.std.specs.Prelude.{ℕ, ◌≤◌, List};
    ghost use Rattle.generator.specs.Schedule.{turns_of};

    ghost Value = { List ℕ };

    ghost view = { λ t. turns_of t.generator t.boards t.left };

    ghost invariant = { λ t. 1 ≤ t.boards };
}

impl SeededTurns {
    /// The seeded schedule of a number, for a setup with this many boards and accesses: 16 turns
    /// for each access.
    pub fn new(n: u64, boards: u8, accesses: u32) -> SeededTurns
        requires { 1 ≤ boards }
        ensures turns { result ≡ seeded_turns n boards accesses }
        ensures places { AllByRecursion (λ place. (1 ≤ place) × (place ≤ boards)) result }
    {
        SeededTurns {
            generator: seeded(n),
            boards,
            left: 16 * u64::from(accesses),
        }
    }

    /// The board that has the next turn. `None` where no turn is left.
    pub fn next_turn(&mut self) -> Option<u8>
        ensures { MatchOption result (self.old ≡ []) (λ board. self.old ≡ board ∷ self.new) }
    {
        if self.left == 0 {
            return None;
        }
        self.left -= 1;
        let word = next_word(&mut self.generator);
        Some(1 + (word % u32::from(self.boards)) as u8)
    }
}
