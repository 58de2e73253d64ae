//! The phase of the bus.

ghost use Rattle.std.specs.Prelude.{◌≡◌, IfSome, is_some};
ghost use Rattle.bus_model.specs.Configuration.{is_granted, is_connected, is_held};
ghost use Rattle.bus_model.specs.Turns.{bus_holder};
ghost use Rattle.backplane.specs.Parts.{phase_of, connection_in};

use bus_signals::{BoardNo, LineNo};
use journal::Connected;

/// The phase of the bus: idle, granted to a board, or with a transaction connected.
#[derive(Drop)]
pub enum Phase {
    Idle,
    Granted(BoardNo),
    Connected(Connected),
}

impl Phase {
    /// The transaction that is connected.
    pub fn connection(&self) -> Option<Connected>
        ensures { result ≡ connection_in (phase_of self.now) }
    {
        match self {
            Phase::Connected(connected) => Some(connected.copy()),
            _ => None,
        }
    }

    /// Whether the bus is granted to a board.
    pub fn is_granted(&self, board: BoardNo) -> bool
        ensures { result ≡ is_granted (phase_of self.now) board }
    {
        match self {
            Phase::Granted(granted) => granted.0 == board.0,
            _ => false,
        }
    }

    /// Whether a board is the master of the transaction that is connected.
    pub fn is_connected(&self, board: BoardNo) -> bool
        ensures { result ≡ is_connected (phase_of self.now) board }
    {
        match self {
            Phase::Connected(connected) => connected.master.0 == board.0,
            _ => false,
        }
    }

    /// The master that holds a line from a board: another board, whose transaction is connected on
    /// the line.
    pub fn held_by(&self, board: BoardNo, line: LineNo) -> Option<BoardNo>
        ensures held { is_some result ≡ is_held (phase_of self.now) board line }
        ensures master { IfSome result (λ master. master ≡ bus_holder (phase_of self.now)) }
    {
        match self {
            Phase::Connected(connected)
                if connected.line.0 == line.0 && connected.master.0 != board.0 => {
                Some(connected.master)
            }
            _ => None,
        }
    }
}
