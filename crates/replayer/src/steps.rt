//! What lines do to a machine.

ghost use Rattle.std.specs.Prelude.{◌≡◌, [], IfOk};
ghost use Rattle.bus_model.specs.Runs.{Complete};
ghost use Rattle.backplane.specs.Machine.{configuration};
ghost use Rattle.replayer.specs.declared.fault.ReplayFault.TheVariants.{Spelling};
ghost use Rattle.replayer.specs.declared.stage.Stage.TheVariants.{Refused};
ghost use Rattle.replayer.specs.Replaying.{close};
ghost use Rattle.replayer.specs.Standing.{number_of_next, place_of, at_event, at_found};

use crate::fault::ReplayFault;
use crate::reader::Found;
use crate::stage::Stage;
use backplane::Machine;
use journal::Event;

/// The number of the line that is read next.
pub fn next_line(machine: &Machine) -> u64
    ensures { result ≡ number_of_next machine.now }
{
    machine.journal().len() as u64 + 1
}

/// An event is done where it is a step.
fn take_event(machine: &mut Machine, event: &Event) -> Stage
    ensures setup { machine.new.setup ≡ machine.old.setup }
    ensures place { place_of machine.new [] result
        ≡ at_event machine.old (number_of_next machine.old) event.now }
{
    let line = next_line(machine);
    match machine.apply(event) {
        Ok(()) => Stage::Reading,
        Err(_) => Stage::Refused(ReplayFault::NotARun { line }),
    }
}

/// A line with its line feed is done.
pub fn take(machine: &mut Machine, found: Found) -> Stage
    ensures setup { machine.new.setup ≡ machine.old.setup }
    ensures place { place_of machine.new [] result
        ≡ at_found machine.old (number_of_next machine.old) found }
{
    match found {
        Found::Event(event) => take_event(machine, &event),
        Found::End => Stage::Ended,
        Found::Misspelled => misspelled(machine),
    }
}

/// The line that is read is spelled by no event.
pub fn misspelled(machine: &Machine) -> Stage
    ensures { result ≡ Refused (Spelling (number_of_next machine.now)) }
{
    Stage::Refused(ReplayFault::Spelling {
        line: next_line(machine),
    })
}

/// The end of a trace: the machine is given where no board is unfinished.
pub fn close(machine: Machine) -> Result<Machine, ReplayFault>
    ensures closed { result ≡ close machine }
    ensures complete { IfOk result (λ m. Complete m.setup (configuration m)) }
{
    match machine.unfinished() {
        None => Ok(machine),
        Some(board) => Err(ReplayFault::Unfinished { board }),
    }
}
