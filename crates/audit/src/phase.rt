//! The phase of the bus.

ghost use Rattle.std.specs.Prelude.{◌≡◌};
ghost use Rattle.bus_model.specs.Configuration.{is_granted, is_held};
ghost use Rattle.bus_model.specs.Turns.{own_transaction};
ghost use Rattle.audit.specs.Parts.{phase_of};

use bus_signals::{BoardNo, LineNo};
use journal::Connected;

/// The phase of the bus: idle, granted to a board, or with a transaction connected.
#[derive(Drop)]
pub enum Phase {
    Idle,
    Granted(BoardNo),
    Connected(Connected),
}

impl Phase {
    /// The transaction of a board that is connected.
    pub fn own(&self, board: BoardNo) -> Option<Connected>
        ensures { result ≡ own_transaction (phase_of self.now) board }
    {
        match self {
            Phase::Connected(connected) if connected.master.0 == board.0 => Some(connected.copy()),
            _ => None,
        }
    }

    /// Whether the bus is granted to a board.
    pub fn is_granted(&self, board: BoardNo) -> bool
        ensures { result ≡ is_granted (phase_of self.now) board }
    {
        match self {
            Phase::Granted(granted) => granted.0 == board.0,
            _ => false,
        }
    }

    /// Whether a line is held from a board: a transaction of another board is connected on it.
    pub fn is_held(&self, board: BoardNo, line: LineNo) -> bool
        ensures { result ≡ is_held (phase_of self.now) board line }
    {
        match self {
            Phase::Connected(connected) => {
                connected.line.0 == line.0 && connected.master.0 != board.0
            }
            _ => false,
        }
    }
}
