//! A race: all boards of a machine move it from threads of their own, to its end.

ghost use Rattle.std.specs.Prelude.{◌≡◌, ℕ, ◌+◌, ◌^◌, ◌<◌, All, IfOk, IfErr, IsTrue, IsFalse, Some, length, slice_get};
ghost use Rattle.bus_model.specs.Runs.{Complete};
ghost use Rattle.bus_model.specs.Setup.{WellFormed};
ghost use Rattle.bus_model.specs.Soundness.{Sound};
ghost use Rattle.backplane.specs.Machine.{configuration};
ghost use Rattle.ruled_turn.specs.Entries.{GoesOn};
ghost use Rattle.ruled_turn.specs.Seats.{given, seats_of, number, seen, turns};
ghost use Rattle.race_run.specs.Histories.{made, AreSteps};
ghost use Rattle.race_run.specs.Workers.{IsSeat, HasWorked, AreLater};
ghost use Rattle.race_run.specs.Races.{GoesOnFrom};

use crate::racing::Racing;
use crate::workers::work_all;
use backplane::Machine;
use fb_edge::Gate;
use player::finish;
use ruled_turn::{BoardSeat, MOST_TURNS, OpenFault, Ruled};
use std::alloc::Global;
use std::sync::Wait;
use std::thread::Threads;

/// There was no memory. The machine comes back as it was given.
#[derive(Drop)]
pub struct RaceFault {
    pub machine: Machine,
}

// A machine under the rule, with a seat for each board, in order.
fn open(
    alloc: Global,
    machine: Machine,
) -> Result<(Ruled<Racing>, Vec<BoardSeat<Racing>>), RaceFault>
    ensures given { IfOk result (λ r. (given r.0).machine ≡ machine) }
    ensures seats { IfOk result (λ r.
        (seats_of r.0 ≡ length machine.setup.boards)
        × (length r.1.items ≡ length machine.setup.boards)) }
    ensures own { IfOk result (λ r. All (IsSeat r.0) r.1.items) }
    ensures numbered { IfOk result
        (λ r. (k : ℕ) (s : _) → slice_get r.1.items k ≡ Some s → number s ≡ k + 1) }
    ensures handed_back { IfErr result (λ f. f.machine ≡ machine) }
{
    let boards = machine.boards();
    let _journal = machine.journal(); // gives Sound to the prover
    match Ruled::new(alloc, Racing { machine }, boards as u32) {
        Ok(opened) => Ok(opened),
        Err(OpenFault { value }) => {
            let Racing { machine } = value;
            Err(RaceFault { machine })
        }
    }
}

// Works all seats of a list.
fn work_each<G: Gate + Sync, R: Threads + Wait + Sync>(
    rt: &R,
    shared: &Ruled<Racing>,
    seats: &mut Vec<BoardSeat<Racing>>,
    gate: &G,
)
    requires { All (IsSeat shared.now) seats.old.items }
    ensures length { length seats.new.items ≡ length seats.old.items }
    ensures own { All (IsSeat shared.now) seats.new.items }
    ensures later { AreLater seats.old.items seats.new.items }
    ensures worked { All (HasWorked shared.now) seats.new.items }
{
    work_all(rt, shared, seats.as_mut_slice(), gate);
}

// Whether a seat has made all its turns.
fn is_any_spent(seats: &[BoardSeat<Racing>]) -> bool
    ensures { IsFalse result → All (λ s. turns s < 2 ^ 40) seats.now }
{
    seats.iter().any(|seat| seat.turns() >= MOST_TURNS)
}

// The machine after the turns of all its seats.
fn close(shared: Ruled<Racing>, seats: Vec<BoardSeat<Racing>>) -> Machine
    requires own { All (IsSeat shared) seats.items }
    requires all { length seats.items ≡ seats_of shared }
    ensures setup { result.setup ≡ (given shared).machine.setup }
    ensures journal { GoesOn (made (given shared).machine.journal) (made result.journal) }
    ensures seen { All (λ s. GoesOn (seen s) (made result.journal)) seats.items }
    ensures well { WellFormed result.setup }
    ensures sound { Sound result.setup result.journal (configuration result) }
{
    let Racing { machine } = shared.close(seats);
    let _journal = machine.journal(); // gives Sound to the prover
    machine
}

// The machine, and where a seat is spent, the machine after rounds to its end.
fn ended(mut machine: Machine, spent: bool) -> Machine
    ensures setup { result.setup ≡ machine.setup }
    ensures journal { GoesOnFrom machine.journal result.journal }
    ensures unspent { IsFalse spent → result ≡ machine }
    ensures spent { IsTrue spent → Complete result.setup (configuration result) }
{
    if spent {
        finish(&mut machine);
    }
    machine
}

/// The boards of a machine race: each moves it from a thread of its own until its script is at its
/// end. Where a seat has made all its turns, which are 2^40, rounds end what is left.
pub fn race<G: Gate + Sync, R: Threads + Wait + Sync>(
    rt: &R,
    alloc: Global,
    machine: Machine,
    gate: &G,
) -> Result<Machine, RaceFault>
    ensures setup { IfOk result (λ m. m.setup ≡ machine.setup) }
    ensures journal { IfOk result (λ m. GoesOnFrom machine.journal m.journal) }
    ensures finished { IfOk result (λ m. Complete m.setup (configuration m)) }

    // Each event is a step from what the events before it give, which is sound.
    ensures steps { IfOk result (λ m. AreSteps m.setup m.journal) }

    ensures handed_back { IfErr result (λ f. f.machine ≡ machine) }
{
    let (shared, mut seats) = open(alloc, machine)?;
    work_each(rt, &shared, &mut seats, gate);
    let spent = is_any_spent(seats.as_slice());
    let machine = close(shared, seats);
    let machine = ended(machine, spent);
    let _journal = machine.journal(); // gives Sound to the prover
    Ok(machine)
}
