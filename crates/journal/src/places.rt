//! Boards in rising order.

ghost use Rattle.std.specs.Prelude.{◌≡◌, ◌≤◌, ◌<◌, ◌++◌, ◌∷◌, [], length};
ghost use Rattle.journal.specs.Rising.{IsRising, IsAboveLast};

use bus_signals::BoardNo;
use std::marker::Model;

/// At most 16 boards, strictly rising. Contracts see them as a list.
#[derive(Clone, Drop)]
pub struct Places {
    items: [BoardNo; 16],
    len: u8,
}

impl Model for Places {
    ghost use Rattle.std.specs.Prelude.{ℕ, ◌≤◌, List, take};
    ghost use Rattle.journal.specs.Rising.{IsRising};

    ghost Value = { List ℕ };

    ghost view = { λ p. take p.len p.items };

    ghost invariant = { λ p. (p.len ≤ 16) × IsRising (take p.len p.items) };
}

impl Places {
    /// No boards.
    pub fn new() -> Places
        ensures { result ≡ [] }
    {
        Places {
            items: [BoardNo(0); 16],
            len: 0,
        }
    }

    /// Appends a board that is above the last one.
    pub fn push(&mut self, item: BoardNo)
        requires room { length self.old < 16 }
        requires above { IsAboveLast self.old item }
        ensures { self.new ≡ self.old ++ item ∷ [] }
    {
        self.items[self.len as usize] = item;
        self.len += 1;
    }

    /// All boards, in order.
    pub fn items(&self) -> &[BoardNo]
        ensures items { result.now ≡ self.now }
        ensures short { length self.now ≤ 16 }
        ensures rising { IsRising self.now }
    {
        &self.items[..self.len as usize]
    }
}
