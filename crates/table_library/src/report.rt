//! What was counted, board by board.

ghost use Rattle.std.specs.Prelude.{◌≡◌, ◌≤◌};
ghost use Rattle.table_library.specs.Traffic.{counts_at};

use crate::counts::Counts;
use bus_signals::BoardNo;
use std::marker::Model;

/// How many boards there can be.
pub(crate) const MOST_BOARDS: usize = 16;

/// What was counted. Contracts see it as the counts of the boards, from board 1, and those of
/// memory.
#[derive(Drop)]
pub struct Traffic {
    boards: [Counts; MOST_BOARDS],
    memory: (u64, u64),
}

impl Model for Traffic {
    ghost use Rattle.table_library.specs.Traffic.{Traffic};

    ghost Value = { Traffic };

    ghost view = { λ t. record { boards = t.boards; memory = t.memory } };
}

impl Traffic {
    /// The report of these counts.
    pub(crate) fn of(boards: [Counts; MOST_BOARDS], memory: (u64, u64)) -> Traffic
        ensures { result ≡ record { boards = boards; memory = memory } }
    {
        Traffic { boards, memory }
    }

    /// What a board did.
    pub fn board(&self, board: BoardNo) -> Counts
        requires first { 1 ≤ board }
        requires last { board ≤ 16 }
        ensures { result ≡ counts_at self.now board }
    {
        self.boards[board.0 as usize - 1]
    }

    /// How often memory was the source, and how often it took words.
    pub fn memory(&self) -> (u64, u64)
        ensures { result ≡ self.now.memory }
    {
        self.memory
    }
}
