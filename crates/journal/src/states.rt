//! The states of boards after a data phase.

ghost use Rattle.std.specs.Prelude.{◌≡◌, ◌≤◌, ◌<◌, ◌++◌, ◌∷◌, [], length};
ghost use Rattle.journal.specs.Rising.{RisesAfterFirst, IsAboveRest};
ghost use Rattle.journal.specs.Boards.{state_boards};

use bus_signals::BoardNo;
use moesi_state::State;
use std::marker::Model;

/// At most 16 boards with their states, the master first and the others strictly rising. Contracts
/// see them as a list.
#[derive(Clone, Drop)]
pub struct States {
    items: [(BoardNo, State); 16],
    len: u8,
}

impl Model for States {
    ghost use Rattle.std.specs.Prelude.{ℕ, ◌≤◌, List, take};
    ghost use Rattle.moesi_state.specs.declared.State.{State};
    ghost use Rattle.journal.specs.Rising.{RisesAfterFirst};
    ghost use Rattle.journal.specs.Boards.{state_boards};

    ghost Value = { List (ℕ × State) };

    ghost view = { λ s. take s.len s.items };

    ghost invariant = { λ s. (s.len ≤ 16) × RisesAfterFirst (state_boards (take s.len s.items)) };
}

impl States {
    /// No boards.
    pub fn new() -> States
        ensures { result ≡ [] }
    {
        States {
            items: [(BoardNo(0), State::I); 16],
            len: 0,
        }
    }

    /// Appends a board that is above the last one, not counting the first.
    pub fn push(&mut self, item: (BoardNo, State))
        requires room { length self.old < 16 }
        requires above { IsAboveRest (state_boards self.old) item.0 }
        ensures { self.new ≡ self.old ++ item ∷ [] }
    {
        self.items[self.len as usize] = item;
        self.len += 1;
    }

    /// All boards with their states, the master first.
    pub fn items(&self) -> &[(BoardNo, State)]
        ensures items { result.now ≡ self.now }
        ensures short { length self.now ≤ 16 }
        ensures rising { RisesAfterFirst (state_boards self.now) }
    {
        &self.items[..self.len as usize]
    }
}
