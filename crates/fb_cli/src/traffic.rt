//! `traffic`: what the boards and memory did on the bus in a run.

ghost use Rattle.std.specs.Prelude.{◌≡◌, ◌≤◌, [], length, true, IfOk};
ghost use Rattle.std.specs.List.{AllByRecursion, list_all};
ghost use Rattle.fb_edge.specs.Outside.{Rose};
ghost use Rattle.table_library.specs.Lines.{traffic_text};
ghost use Rattle.fb_cli.specs.Report.{is_accepted};
ghost use Rattle.fb_cli.specs.Run.{turns_of};
ghost use Rattle.fb_cli.specs.Traffic.{moved_by, traffic, traffic_seeded};
ghost use Rattle.fb_cli.specs.Replies.{Comes, answer_output};

use crate::answers::{Answer, Outcome, Reply};
use crate::running;
use crate::seen::Seen;
use crate::starting::start;
use backplane::Machine;
use fb_edge::Shelf;
use fb_text::Text;
use no_memory::NoMemory;
use player::{play, play_seeded};
use setup_text::Setup;
use std::alloc::Global;
use table_library::write_traffic;

#[cfg(test)]
mod tests;

/// Room for the lines of 16 boards and of memory.
const ROOM: usize = 4096;

/// What a run moved, written where there is room for it.
fn moved(machine: &Machine, text: Text) -> Answer
    requires room { 4096 ≤ text.spare }
    requires empty { text.bytes ≡ [] }
    ensures { answer_output result
        ≡ record { status = 0; text = traffic_text machine.now.journal (length machine.now.setup.boards) } }
{
    let mut text = text;
    write_traffic(machine.journal(), machine.boards(), &mut text);
    Answer::Said {
        outcome: Outcome::Done,
        text,
    }
}

/// What the run of a setup by turns moved.
fn count_turns(alloc: Global, setup: Setup, turns: &[u8]) -> Result<Answer, NoMemory>
    requires accepted { list_all is_accepted setup.tables ≡ true }
    requires places { AllByRecursion (λ p. (1 ≤ p) × (p ≤ length setup.boards)) turns.now }
    ensures { IfOk result (λ answer.
        answer_output answer ≡ record { status = 0; text = moved_by setup turns.now }) }
{
    let mut machine = start(alloc, setup)?;
    let mut text = Text::new(alloc);
    text.reserve(ROOM)?;
    play(&mut machine, turns);
    Ok(moved(&machine, text))
}

/// What the run of a setup by the seeded schedule of a number moved.
fn count_seeded(alloc: Global, setup: Setup, seed: u64) -> Result<Answer, NoMemory>
    requires { list_all is_accepted setup.tables ≡ true }
    ensures { IfOk result (λ answer.
        answer_output answer ≡ record { status = 0; text = moved_by setup (turns_of seed setup) }) }
{
    let accesses = setup.accesses();
    let mut machine = start(alloc, setup)?;
    let mut text = Text::new(alloc);
    text.reserve(ROOM)?;
    play_seeded(&mut machine, seed, accesses);
    Ok(moved(&machine, text))
}

/// Does `traffic`.
pub fn traffic<F: Shelf>(alloc: Global, name: &str, schedule: &str, shelf: &mut F) -> Reply
    ensures { Comes (traffic name.now schedule.now) (F.file shelf.old)
        (Rose (F.faults shelf.old) (F.faults shelf.new)) result }
{
    match running::ready(alloc, name, schedule, shelf, &mut Seen::nothing(alloc)) {
        Ok(scheduled) => Reply::of(count_turns(alloc, scheduled.setup, &scheduled.turns)),
        Err(reply) => reply,
    }
}

/// Does `traffic` with a number in place of a schedule.
pub fn traffic_seeded<F: Shelf>(alloc: Global, name: &str, seed: u64, shelf: &mut F) -> Reply
    ensures { Comes (traffic_seeded name.now seed) (F.file shelf.old)
        (Rose (F.faults shelf.old) (F.faults shelf.new)) result }
{
    match running::ready_setup(alloc, name, shelf, &mut Seen::nothing(alloc)) {
        Ok(setup) => Reply::of(count_seeded(alloc, setup, seed)),
        Err(reply) => reply,
    }
}
