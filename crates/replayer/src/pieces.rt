//! A replay of a trace that comes piece by piece.

ghost use Rattle.std.specs.Prelude.{◌≡◌, ◌↔◌, ◌++◌, ℕ, List, [], ◌∷◌, IsTrue, IfOk};
ghost use Rattle.bus_model.specs.Runs.{Complete};
ghost use Rattle.backplane.specs.Machine.{opened, configuration};
ghost use Rattle.replayer.specs.Lines.{trace_of};
ghost use Rattle.replayer.specs.Reader.{LacksFeed};
ghost use Rattle.replayer.specs.Traces.{fed, ending};
ghost use Rattle.replayer.specs.Replaying.{step, close, replayed};
ghost use Rattle.replayer.specs.Runs.{Says, Accepts, IsOnlyAnswer};
ghost use Rattle.replayer.specs.Standing.{StandsFor, IsReading};

use crate::fault::ReplayFault;
use crate::reader::{Reader, first_line};
use crate::stage::Stage;
use crate::steps::{close, misspelled, next_line, take};
use backplane::Machine;
use std::marker::Model;

/// A machine, and how far a trace has brought it.
#[derive(Drop)]
pub struct Replay {
    machine: Machine,
    reader: Reader,
    stage: Stage,
}

impl Model for Replay {
    ghost use Rattle.replayer.specs.Standing.{Replaying, place_of};

    ghost Value = { Replaying };

    ghost view = { λ r. record {
      setup = r.machine.setup;
      place = place_of r.machine r.reader r.stage;
    } };
}

impl Replay {
    /// Before the first byte of a trace.
    pub fn start(machine: Machine) -> Replay
        requires { machine.journal ≡ [] }
        ensures setup { result.setup ≡ machine.setup }
        ensures stands { StandsFor result [] }
    {
        Replay {
            machine,
            reader: Reader::new(),
            stage: Stage::Reading,
        }
    }

    /// Reads the next piece of the trace. Whatever follows the line `end`, or a fault, is
    /// ignored.
    pub fn feed(&mut self, piece: &[u8])
        ensures setup { self.new.setup ≡ self.old.setup }
        ensures stands { (text : List ℕ) → StandsFor self.old text
            → StandsFor self.new (text ++ piece.now) }
    {
        self.read(piece);
    }

    /// The trace ends here. It gives the machine where the trace is one of a complete run of its
    /// setup.
    pub fn finish(self) -> Result<Machine, ReplayFault>
        ensures replayed { (text : List ℕ) → StandsFor self text
            → result ≡ replayed (opened self.setup) text }
        ensures says { (text : List ℕ) → StandsFor self text
            → Says self.setup (trace_of text) result }
        ensures accepts { (text : List ℕ) → StandsFor self text
            → Accepts self.setup (trace_of text) result }
        ensures only { (text : List ℕ) → StandsFor self text
            → IsOnlyAnswer self.setup (trace_of text) result }
    {
        self.answer()
    }

    /// Reads a piece line by line.
    fn read(&mut self, piece: &[u8])
        ensures setup { self.new.setup ≡ self.old.setup }
        ensures place { self.new.place ≡ fed step self.old.place piece.now }
    {
        let mut rest = piece;
        while self.is_reading() {
            let Some((line, behind)) = first_line(rest) else {
                self.keep(rest);
                return;
            };
            self.close_line(line);
            rest = behind;
        }
    }

    fn is_reading(&self) -> bool
        ensures { IsTrue result ↔ IsReading self.now.place }
    {
        match &self.stage {
            Stage::Reading => true,
            Stage::Ended => false,
            Stage::Refused(_) => false,
        }
    }

    /// The line that is read ends with these bytes and its line feed.
    fn close_line(&mut self, bytes: &[u8])
        requires reading { IsReading self.old.place }
        requires lacks { LacksFeed bytes.now }
        ensures setup { self.new.setup ≡ self.old.setup }
        ensures place { (rest : List ℕ)
            → fed step self.new.place rest ≡ fed step self.old.place (bytes.now ++ 10 ∷ rest) }
    {
        let found = self.reader.close(bytes);
        self.stage = take(&mut self.machine, found);
    }

    /// The line that is read goes on with these bytes, after which the piece ends.
    fn keep(&mut self, bytes: &[u8])
        requires reading { IsReading self.old.place }
        requires lacks { LacksFeed bytes.now }
        ensures setup { self.new.setup ≡ self.old.setup }
        ensures place { self.new.place ≡ fed step self.old.place bytes.now }
    {
        if !self.reader.keep(bytes) {
            self.stage = misspelled(&self.machine);
        }
    }

    /// The result of a text that ends here.
    fn answer(self) -> Result<Machine, ReplayFault>
        ensures ending { result ≡ ending close self.place }
        ensures complete { IfOk result (λ m. Complete m.setup (configuration m)) }
    {
        let Replay {
            machine,
            reader,
            stage,
        } = self;
        match stage {
            Stage::Refused(fault) => Err(fault),
            Stage::Ended => close(machine),
            Stage::Reading => {
                if reader.is_empty() {
                    close(machine)
                } else {
                    Err(ReplayFault::Spelling {
                        line: next_line(&machine),
                    })
                }
            }
        }
    }
}
