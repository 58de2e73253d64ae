//! `race`: a setup whose boards move its machine from threads of their own.

ghost use Rattle.std.specs.Prelude.{◌≡◌, true, IfOk};
ghost use Rattle.std.specs.List.{list_all};
ghost use Rattle.fb_edge.specs.Outside.{Rose};
ghost use Rattle.fb_cli.specs.Report.{is_accepted};
ghost use Rattle.fb_cli.specs.Run.{race};
ghost use Rattle.fb_cli.specs.Headline.{IsTextOfRun};
ghost use Rattle.fb_cli.specs.Replies.{Comes, answer_output};

use crate::answers::{Answer, Reply};
use crate::room::Room;
use crate::running::ready_setup;
use crate::seen::Seen;
use crate::starting::{ran, start};
use backplane::Machine;
use fb_edge::{Gate, Shelf};
use no_memory::NoMemory;
use race_run::{RaceFault, race};
use setup_text::Setup;
use std::alloc::Global;
use std::sync::Wait;
use std::thread::Threads;

#[cfg(test)]
mod tests;

/// The run that a race of a setup makes.
fn raced<G: Gate + Sync, R: Threads + Wait + Sync>(
    rt: &R,
    alloc: Global,
    setup: Setup,
    gate: &G,
) -> Result<Answer, NoMemory>
    requires { list_all is_accepted setup.tables ≡ true }
    ensures done { IfOk result (λ answer. (answer_output answer).status ≡ 0) }
    ensures run { IfOk result (λ answer. IsTextOfRun setup (answer_output answer).text) }
{
    let room = Room::new(alloc)?;
    let machine = start(alloc, setup)?;
    match race(rt, alloc, machine, gate) {
        Ok(machine) => Ok(ran(machine, room)),
        Err(RaceFault { .. }) => Err(NoMemory),
    }
}

/// Does `race`.
pub fn race_file<F: Shelf, G: Gate + Sync, R: Threads + Wait + Sync>(
    rt: &R,
    alloc: Global,
    name: &str,
    shelf: &mut F,
    gate: &G,
) -> Reply
    ensures { Comes (race name.now) (F.file shelf.old)
        (Rose (F.faults shelf.old) (F.faults shelf.new)) result }
{
    match ready_setup(alloc, name, shelf, &mut Seen::nothing(alloc)) {
        Ok(setup) => Reply::of(raced(rt, alloc, setup, gate)),
        Err(reply) => reply,
    }
}
