//! What can be read from a seat.

ghost use Rattle.std.specs.Prelude.{◌≡◌, ◌≤◌, ◌^◌};
ghost use Rattle.ruled_turn.specs.Seats.{number, turns};

use super::BoardSeat;
use crate::turned::Turned;

impl<M: Turned> BoardSeat<M> {
    /// The number under which the seat makes its turns, from 1.
    pub fn number(&self) -> u32
        ensures { result ≡ number self.now }
    {
        self.number
    }

    /// How many turns the seat has made.
    pub fn turns(&self) -> u64
        ensures turns { result ≡ turns self.now }
        ensures few { result ≤ 2 ^ 40 }
    {
        self.turns
    }
}
