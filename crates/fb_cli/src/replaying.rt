//! `replay`: a trace replayed on a setup, read piece by piece.

ghost use Rattle.std.specs.Prelude.{◌≡◌, ◌≤◌, ◌<◌, ◌^◌, [], true, None, Some, Ok, Err, length, IfOk, IfErr, IfSome, OnOk, option_map};
ghost use Rattle.std.specs.List.{list_all};
ghost use Rattle.fb_edge.specs.Outside.{Rose};
ghost use Rattle.backplane.specs.Machine.{opened};
ghost use Rattle.replayer.specs.Replaying.{replayed};
ghost use Rattle.fb_cli.specs.Report.{is_accepted};
ghost use Rattle.fb_cli.specs.Output.{limit_of};
ghost use Rattle.fb_cli.specs.Replay.{FedWith, TraceCause, on_replayed, replay, trace_refusal};
ghost use Rattle.fb_cli.specs.Replies.{Comes, Gives, Ready, answer_output};

use crate::answers::{Answer, LINE, Outcome, Refusal, Reply, long_answer};
use crate::opening::{limit_of, open, open_accepted};
use crate::role::Role;
use crate::room::Room;
use crate::seen::Seen;
use crate::starting::start;
use crate::words::number;
use backplane::Machine;
use fb_edge::Shelf;
use fb_text::Text;
use no_memory::NoMemory;
use replayer::{Replay, ReplayFault};
use setup::Setup;
use std::alloc::Global;

#[cfg(test)]
mod tests;

/// Why a file was not replayed.
#[derive(Clone, Copy, Debug, PartialEq, Eq)]
pub enum TraceFileFault {
    /// The shelf failed.
    Failed,
    /// The file has more bytes than the limit, of which this many were taken.
    TooLong { taken: u64 },
    /// It is not the trace of a complete run.
    Trace(ReplayFault),
}

/// The most bytes that are read at once.
const PIECE: usize = 4096;

/// Feeds a replay with the file that was started, to its end.
fn feed_all<F: Shelf>(replay: &mut Replay, shelf: &mut F, limit: u64) -> Result<(), TraceFileFault>
    requires limit { limit < 2 ^ 63 }
    ensures setup { replay.new.setup ≡ replay.old.setup }
    ensures fed { OnOk result (IfSome (F.rest shelf.old)
        (λ bytes. (length bytes ≤ limit) × FedWith replay.old bytes replay.new)) }
    ensures fault { IfErr result (TraceCause (F.rest shelf.old) limit
        (Rose (F.faults shelf.old) (F.faults shelf.new)) (λ fault. ⊥)) }
    ensures later { F.faults shelf.old ≤ F.faults shelf.new }
    ensures file { F.file shelf.new ≡ F.file shelf.old }
{
    let mut piece = [0u8; PIECE];
    let mut taken = 0;
    while taken <= limit {
        let room = limit - taken + 1;
        let want = room.min(PIECE as u64) as usize;
        let Ok(count) = shelf.next(&mut piece[..want]) else {
            return Err(TraceFileFault::Failed);
        };
        if count == 0 {
            return Ok(());
        }
        replay.feed(&piece[..count]);
        taken += count as u64;
    }
    Err(TraceFileFault::TooLong { taken })
}

/// Replays the trace of a file on a machine at its opening. It takes no memory.
pub fn replay_file<F: Shelf>(
    machine: Machine,
    shelf: &mut F,
    name: &str,
    limit: u64,
) -> Result<Machine, TraceFileFault>
    requires opening { machine.journal ≡ [] }
    requires limit { limit < 2 ^ 63 }
    ensures short { IfOk result
        (λ m. IfSome (F.file shelf.old) (λ file. length (file name.now) ≤ limit)) }
    ensures replayed { IfOk result
        (λ m. IfSome (F.file shelf.old) (λ file. replayed machine (file name.now) ≡ Ok m)) }
    ensures fault { IfErr result
        (TraceCause (option_map (λ file. file name.now) (F.file shelf.old)) limit
        (Rose (F.faults shelf.old) (F.faults shelf.new))
        (λ fault. IfSome (F.file shelf.old) (λ file. (length (file name.now) ≤ limit)
        × (replayed machine (file name.now) ≡ Err fault)))) }
    ensures later { F.faults shelf.old ≤ F.faults shelf.new }
    ensures file { F.file shelf.new ≡ F.file shelf.old }
{
    if shelf.start(name).is_err() {
        return Err(TraceFileFault::Failed);
    }
    let mut replay = Replay::start(machine);
    match feed_all(&mut replay, shelf, limit) {
        Ok(()) => match replay.finish() {
            Ok(machine) => Ok(machine),
            Err(fault) => Err(TraceFileFault::Trace(fault)),
        },
        Err(fault) => Err(fault),
    }
}

/// The answer where a trace is not that of a complete run.
fn trace_answer(alloc: Global, fault: ReplayFault) -> Result<Answer, NoMemory>
    ensures { IfOk result (λ answer. on_replayed (Err fault) ≡ Some (answer_output answer)) }
{
    let mut text = Text::new(alloc);
    text.reserve(LINE)?;
    match fault {
        ReplayFault::Spelling { line } => {
            text.push(b"fault trace line ");
            number(&mut text, line);
            text.push(b" spelling\n");
        }
        ReplayFault::NotARun { line } => {
            text.push(b"fault trace line ");
            number(&mut text, line);
            text.push(b" not-a-run\n");
        }
        ReplayFault::Unfinished { board } => {
            text.push(b"fault trace unfinished ");
            number(&mut text, u64::from(board.0));
            text.push(b"\n");
        }
    }
    Ok(Answer::Said {
        outcome: Outcome::Refused,
        text,
    })
}

/// A machine on which a trace was replayed, and room for the lines of the ending.
#[derive(Drop)]
pub struct Replayed {
    pub machine: Machine,
    pub room: Room,
}

/// The machine of a file's trace, from one at its opening.
fn traced<F: Shelf>(
    alloc: Global,
    machine: Machine,
    name: &str,
    shelf: &mut F,
) -> Result<Replayed, Reply>
    requires opening { machine.journal ≡ [] }
    ensures replayed { IfOk result (λ r. IfSome (F.file shelf.old)
        (λ file. (length (file name.now) ≤ limit_of Role.Trace)
        × (replayed machine (file name.now) ≡ Ok r.machine))) }
    ensures stops { IfErr result (Gives
        (λ o. IfSome (F.file shelf.old) (λ file. trace_refusal machine (file name.now) ≡ Some o))
        (λ role. (role ≡ Role.Trace) × (Rose (F.faults shelf.old) (F.faults shelf.new)))) }
{
    let Ok(room) = Room::new(alloc) else {
        return Err(Reply::Refused(Refusal::NoMemory));
    };
    match replay_file(machine, shelf, name, limit_of(Role::Trace)) {
        Ok(machine) => Ok(Replayed { machine, room }),
        Err(TraceFileFault::Failed) => Err(Reply::Refused(Refusal::Unread(Role::Trace))),
        Err(TraceFileFault::TooLong { taken }) => {
            Err(Reply::of(long_answer(alloc, Role::Trace, taken)))
        }
        Err(TraceFileFault::Trace(fault)) => Err(Reply::of(trace_answer(alloc, fault))),
    }
}

/// The machine of a file's trace, on a setup whose tables are accepted.
fn ended<F: Shelf>(
    alloc: Global,
    setup: Setup,
    name: &str,
    shelf: &mut F,
) -> Result<Replayed, Reply>
    requires { list_all is_accepted setup.tables ≡ true }
    ensures replayed { IfOk result (λ r. IfSome (F.file shelf.old)
        (λ file. (length (file name.now) ≤ limit_of Role.Trace)
        × (replayed (opened setup) (file name.now) ≡ Ok r.machine))) }
    ensures stops { IfErr result (Gives
        (λ o. IfSome (F.file shelf.old)
        (λ file. trace_refusal (opened setup) (file name.now) ≡ Some o))
        (λ role. (role ≡ Role.Trace) × (Rose (F.faults shelf.old) (F.faults shelf.new)))) }
{
    match start(alloc, setup) {
        Ok(machine) => traced(alloc, machine, name, shelf),
        Err(NoMemory) => Err(Reply::Refused(Refusal::NoMemory)),
    }
}

/// Does `replay`.
pub fn replay<F: Shelf>(alloc: Global, name: &str, trace: &str, shelf: &mut F) -> Reply
    ensures { Comes (replay name.now trace.now) (F.file shelf.old)
        (Rose (F.faults shelf.old) (F.faults shelf.new)) result }
{
    match open_accepted(alloc, name, shelf, &mut Seen::nothing(alloc)) {
        Ok(setup) => match ended(alloc, setup, trace, shelf) {
            Ok(replayed) => Reply::Answered(Answer::Replayed {
                machine: replayed.machine,
                room: replayed.room,
            }),
            Err(reply) => reply,
        },
        Err(reply) => reply,
    }
}

/// Replays a trace on a machine at its opening.
fn replay_bytes(machine: Machine, bytes: &[u8]) -> Result<Machine, ReplayFault>
    requires { machine.journal ≡ [] }
    ensures { result ≡ replayed machine bytes.now }
{
    let mut replay = Replay::start(machine);
    replay.feed(bytes);
    replay.finish()
}

/// The machine of a file's trace, on a setup whose tables are accepted. The trace is kept.
fn kept<F: Shelf>(
    alloc: Global,
    setup: Setup,
    name: &str,
    shelf: &mut F,
    seen: &mut Seen,
) -> Result<Machine, Reply>
    requires { list_all is_accepted setup.tables ≡ true }
    ensures free { OnOk result (IfSome (F.file shelf.old)
        (λ file. trace_refusal (opened setup) (file name.now) ≡ None)) }
    ensures stops { IfErr result (Gives
        (λ o. IfSome (F.file shelf.old)
        (λ file. trace_refusal (opened setup) (file name.now) ≡ Some o))
        (λ role. (role ≡ Role.Trace) × (Rose (F.faults shelf.old) (F.faults shelf.new)))) }
{
    let Ok(machine) = start(alloc, setup) else {
        return Err(Reply::Refused(Refusal::NoMemory));
    };
    let bytes = open(alloc, Role::Trace, name, shelf, seen)?;
    let replayed = replay_bytes(machine, &bytes);
    seen.keep(Role::Trace, bytes);
    match replayed {
        Ok(machine) => Ok(machine),
        Err(fault) => Err(Reply::of(trace_answer(alloc, fault))),
    }
}

/// The machine of the trace of a file, on the setup of another. Both files are kept.
pub fn ready<F: Shelf>(
    alloc: Global,
    name: &str,
    trace: &str,
    shelf: &mut F,
    seen: &mut Seen,
) -> Result<Machine, Reply>
    ensures { Ready (replay name.now trace.now) (F.file shelf.old)
        (Rose (F.faults shelf.old) (F.faults shelf.new)) result }
{
    match open_accepted(alloc, name, shelf, seen) {
        Ok(setup) => kept(alloc, setup, trace, shelf, seen),
        Err(reply) => Err(reply),
    }
}
