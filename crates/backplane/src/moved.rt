//! The result of a turn.

use bus_signals::{BoardNo, LineNo};

/// Why a board waits: a transaction of another board is connected on the line, or another board has
/// the bus.
#[derive(Clone, Copy, Debug, PartialEq, Eq)]
pub enum Why {
    Line { master: BoardNo, line: LineNo },
    Bus { master: BoardNo },
}

/// The result of a turn: an event, nothing for now, or nothing any more.
#[derive(Clone, Copy, Debug, PartialEq, Eq)]
pub enum Moved {
    Did,
    Waits(Why),
    Finished,
}
