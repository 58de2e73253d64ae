//! `run`: a setup played by a schedule, or by the seeded schedule of a number.

ghost use Rattle.std.specs.Prelude.{◌≡◌, ◌≤◌, length, true, Some, IfOk, IfErr, IfSome};
ghost use Rattle.std.specs.List.{AllByRecursion, list_all};
ghost use Rattle.fb_edge.specs.Outside.{Rose};
ghost use Rattle.fb_cli.specs.Report.{is_accepted};
ghost use Rattle.fb_cli.specs.Command.{AreSetup};
ghost use Rattle.fb_cli.specs.Run.{AreTurns, played_text, race, run, run_seeded, turns_of, turns_refusal};
ghost use Rattle.fb_cli.specs.Headline.{IsTextOfRun};
ghost use Rattle.fb_cli.specs.Replies.{Comes, Gives, Ready, answer_output};

use crate::answers::{Answer, Reply};
use crate::opening::{open_accepted, open_schedule, open_setup};
use crate::report::judge;
use crate::role::Role;
use crate::room::Room;
use crate::seen::Seen;
use crate::starting::{ran, start};
use fb_edge::Shelf;
use no_memory::NoMemory;
use player::{play, play_seeded};
use setup_text::Setup;
use std::alloc::Global;

#[cfg(test)]
mod tests;

/// The run of a setup by turns.
fn play_turns(alloc: Global, setup: Setup, turns: &[u8]) -> Result<Answer, NoMemory>
    requires accepted { list_all is_accepted setup.tables ≡ true }
    requires places { AllByRecursion (λ p. (1 ≤ p) × (p ≤ length setup.boards)) turns.now }
    ensures output { IfOk result (λ answer.
        answer_output answer ≡ record { status = 0; text = played_text setup turns.now }) }
    ensures run { IfOk result (λ answer. IsTextOfRun setup (answer_output answer).text) }
{
    let mut machine = start(alloc, setup)?;
    let room = Room::new(alloc)?;
    play(&mut machine, turns);
    Ok(ran(machine, room))
}

/// The run of a setup by the seeded schedule of a number.
fn play_seed(alloc: Global, setup: Setup, seed: u64) -> Result<Answer, NoMemory>
    requires { list_all is_accepted setup.tables ≡ true }
    ensures output { IfOk result (λ answer.
        answer_output answer
        ≡ record { status = 0; text = played_text setup (turns_of seed setup) }) }
    ensures run { IfOk result (λ answer. IsTextOfRun setup (answer_output answer).text) }
{
    let accesses = setup.accesses();
    let mut machine = start(alloc, setup)?;
    let room = Room::new(alloc)?;
    play_seeded(&mut machine, seed, accesses);
    Ok(ran(machine, room))
}

/// A setup and the turns of a schedule of it.
#[derive(Drop)]
pub struct Scheduled {
    pub setup: Setup,
    pub turns: Vec<u8>,
}

/// The turns of a file, on a setup whose tables are in the class.
fn with_turns<F: Shelf>(
    alloc: Global,
    setup: Setup,
    name: &str,
    shelf: &mut F,
    seen: &mut Seen,
) -> Result<Scheduled, Reply>
    ensures setup { IfOk result (λ s. s.setup ≡ setup) }
    ensures accepted { IfOk result (λ s. list_all is_accepted s.setup.tables ≡ true) }
    ensures places { IfOk result
        (λ s. AllByRecursion (λ p. (1 ≤ p) × (p ≤ length s.setup.boards)) s.turns.items) }
    ensures turns { IfOk result (λ s. IfSome (F.file shelf.old)
        (λ file. AreTurns setup s.turns.items (file name.now))) }
    ensures stops { IfErr result (Gives
        (λ o. IfSome (F.file shelf.old) (λ file. turns_refusal setup (file name.now) ≡ Some o))
        (λ role. (role ≡ Role.Schedule) × (Rose (F.faults shelf.old) (F.faults shelf.new)))) }
{
    let turns = open_schedule(alloc, name, setup.boards().len() as u8, shelf, seen)?;
    match judge(alloc, &setup) {
        Ok(()) => Ok(Scheduled { setup, turns }),
        Err(reply) => Err(reply),
    }
}

/// The setup and the turns of two files.
pub fn ready<F: Shelf>(
    alloc: Global,
    name: &str,
    schedule: &str,
    shelf: &mut F,
    seen: &mut Seen,
) -> Result<Scheduled, Reply>
    ensures ready { Ready (run name.now schedule.now) (F.file shelf.old)
        (Rose (F.faults shelf.old) (F.faults shelf.new)) result }
    ensures accepted { IfOk result (λ s. list_all is_accepted s.setup.tables ≡ true) }
    ensures places { IfOk result
        (λ s. AllByRecursion (λ p. (1 ≤ p) × (p ≤ length s.setup.boards)) s.turns.items) }
    ensures read { IfOk result (λ s. IfSome (F.file shelf.old) (λ file.
        AreSetup s.setup (file name.now)
        × AreTurns s.setup s.turns.items (file schedule.now))) }
{
    match open_setup(alloc, name, shelf, seen) {
        Ok(setup) => with_turns(alloc, setup, schedule, shelf, seen),
        Err(reply) => Err(reply),
    }
}

/// Does `run`.
pub fn run<F: Shelf>(alloc: Global, name: &str, schedule: &str, shelf: &mut F) -> Reply
    ensures { Comes (run name.now schedule.now) (F.file shelf.old)
        (Rose (F.faults shelf.old) (F.faults shelf.new)) result }
{
    match ready(alloc, name, schedule, shelf, &mut Seen::nothing(alloc)) {
        Ok(scheduled) => Reply::of(play_turns(alloc, scheduled.setup, &scheduled.turns)),
        Err(reply) => reply,
    }
}

/// The setup of a file that is to be played.
pub fn ready_setup<F: Shelf>(
    alloc: Global,
    name: &str,
    shelf: &mut F,
    seen: &mut Seen,
) -> Result<Setup, Reply>
    ensures ready { Ready (race name.now) (F.file shelf.old)
        (Rose (F.faults shelf.old) (F.faults shelf.new)) result }
    ensures accepted { IfOk result (λ setup. list_all is_accepted setup.tables ≡ true) }
    ensures setup { IfOk result
        (λ setup. IfSome (F.file shelf.old) (λ file. AreSetup setup (file name.now))) }
{
    match open_accepted(alloc, name, shelf, seen) {
        Ok(setup) => Ok(setup),
        Err(reply) => Err(reply),
    }
}

/// Does `run` with a number in place of a schedule.
pub fn run_seeded<F: Shelf>(alloc: Global, name: &str, seed: u64, shelf: &mut F) -> Reply
    ensures { Comes (run_seeded name.now seed) (F.file shelf.old)
        (Rose (F.faults shelf.old) (F.faults shelf.new)) result }
{
    match ready_setup(alloc, name, shelf, &mut Seen::nothing(alloc)) {
        Ok(setup) => Reply::of(play_seed(alloc, setup, seed)),
        Err(reply) => reply,
    }
}
