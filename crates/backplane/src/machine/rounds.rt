//! A round: a turn of each board.

ghost use Rattle.std.specs.Prelude.{◌≡◌, ◌≤◌, length};
ghost use Rattle.bus_model.specs.Runs.{Complete};
ghost use Rattle.bus_model.specs.Setup.{board_places};
ghost use Rattle.bus_model.specs.Turns.{events_of_turns};
ghost use Rattle.backplane.specs.Machine.{configuration};
ghost use Rattle.backplane.specs.Moves.{after_turns, events_told};

use crate::machine::Machine;
use crate::moved::Moved;
use bus_signals::BoardNo;

/// The number of events of a turn.
fn events_of(moved: Moved) -> u8
    ensures { result ≡ events_told moved }
{
    match moved {
        Moved::Did => 1,
        Moved::Waits(_) | Moved::Finished => 0,
    }
}

impl Machine {
    /// Gives each board one turn, in order, and answers how many of them did an event. While some
    /// board has an access to do, that is at least one.
    pub fn round(&mut self) -> u8
        ensures turns { self.new ≡ after_turns self.old (board_places self.old.setup) }
        ensures count { result
            ≡ length (events_of_turns self.old.setup (configuration self.old)
            (board_places self.old.setup)) }
        ensures goes_on { (Complete self.old.setup (configuration self.old) → ⊥) → 1 ≤ result }
    {
        let _journal = self.journal(); // gives Sound to the prover
        let boards = self.boards();
        let mut did = 0;
        for place in 0..boards {
            did += events_of(self.advance(BoardNo(place + 1)));
        }
        did
    }
}
