//! The machine as boards move it in turns.

ghost use Rattle.race_run.specs.Histories.{made, IsPlace, IsTurn};

use backplane::{Machine, Moved};
use bus_signals::BoardNo;
use journal::Event;
use ruled_turn::Turned;
use setup::Setup;

/// A machine whose boards move it in turns.
#[derive(Drop)]
pub struct Racing {
    pub machine: Machine,
}

impl Turned for Racing {
    type Base = Setup;

    type Entry = Event;

    type Answer = Moved;

    ghost base = { λ r. r.machine.setup };

    ghost entries = { λ r. made r.machine.journal };

    ghost admits = { IsPlace };

    ghost replies = { IsTurn };

    fn step(&mut self, who: u32) -> Moved {
        let _journal = self.machine.journal(); // gives Sound to the prover
        self.machine.advance(BoardNo(who as u8))
    }

    fn length(&self) -> u64 {
        self.machine.journal().len() as u64
    }
}
