//! Why a trace is refused.

use bus_signals::BoardNo;

/// Why a trace is not that of a complete run. Lines count from 1.
#[derive(Clone, Copy, Debug, PartialEq, Eq)]
pub enum ReplayFault {
    /// No event spells this line.
    Spelling { line: u64 },
    /// The event of this line is no step after the lines before it.
    NotARun { line: u64 },
    /// All lines were steps, and this is the lowest board whose script is not at its end.
    Unfinished { board: BoardNo },
}
