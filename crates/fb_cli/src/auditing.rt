//! `audit`: turns of any tables, accepted or not, up to the first harm.

ghost use Rattle.std.specs.Prelude.{◌≡◌, ◌≤◌, ℕ, List, None, Some, length, IfOk, IfErr, IfSome};
ghost use Rattle.std.specs.List.{AllByRecursion};
ghost use Rattle.fb_edge.specs.Outside.{Rose};
ghost use Rattle.trace_text.specs.Ranges.{InRange};
ghost use Rattle.run_text.specs.RunLines.{IsTyped};
ghost use Rattle.audit.specs.First.{IsPlaceOf, audited};
ghost use Rattle.audit_text.specs.AuditText.{audit_text, verdict};
ghost use Rattle.fb_cli.specs.Run.{AreTurns, turns_of};
ghost use Rattle.fb_cli.specs.Audit.{audit, audit_refusal, audit_seeded, harm_refusal, seeded_audit};
ghost use Rattle.fb_cli.specs.Replies.{Comes, Gives, Ready, told_output};

use crate::answers::{Answer, Refusal, Reply};
use crate::opening::{open_schedule, open_setup};
use crate::role::Role;
use crate::room::Room;
use crate::seen::Seen;
use crate::told::Told;
use audit::Audit;
use audit_text::{audits_are_spelled, write_verdict};
use fb_edge::Shelf;
use fb_text::Text;
use generator::SeededTurns;
use no_memory::NoMemory;
use setup::Setup;
use std::alloc::Global;

#[cfg(test)]
mod tests;

/// Room for the line that tells what was found.
const LAST: usize = 64;

/// An audit whose events are spelled, with the line that tells what was found.
fn tell(alloc: Global, audit: Audit) -> Result<Told, NoMemory>
    requires { AllByRecursion (λ event. IsTyped event → InRange event) audit.journal }
    ensures audit { IfOk result (λ told. told.audit ≡ audit) }
    ensures last { IfOk result (λ told. told.last.bytes ≡ verdict audit) }
{
    let room = Room::new(alloc)?;
    let mut last = Text::new(alloc);
    last.reserve(LAST)?;
    write_verdict(&audit, &mut last);
    Ok(Told { audit, last, room })
}

/// The audit of a setup by these turns.
fn audit_turns(alloc: Global, setup: Setup, turns: &[u8]) -> Result<Told, NoMemory>
    requires { AllByRecursion (IsPlaceOf setup) turns.now }
    ensures audit { IfOk result (λ told. told.audit ≡ audited setup turns.now) }
    ensures last { IfOk result (λ told. told.last.bytes ≡ verdict (audited setup turns.now)) }
{
    audits_are_spelled();
    let audit = audit::audit(alloc, setup, turns)?;
    tell(alloc, audit)
}

/// The audit of a setup by these turns, where no event does harm. Where one does, the command stops
/// with it.
pub fn judge_turns(alloc: Global, setup: Setup, turns: &[u8]) -> Result<Told, Reply>
    requires { AllByRecursion (IsPlaceOf setup) turns.now }
    ensures free { IfOk result (λ told. harm_refusal (audited setup turns.now) ≡ None) }
    ensures output { IfOk result (λ told. told_output told
        ≡ record { status = 0; text = audit_text (audited setup turns.now) }) }
    ensures stops { IfErr result
        (Gives (λ o. harm_refusal (audited setup turns.now) ≡ Some o) (λ role. ⊥)) }
{
    match audit_turns(alloc, setup, turns) {
        Ok(told) => match told.audit.finding() {
            None => Ok(told),
            Some(_) => Err(Reply::Answered(Answer::Audited(told))),
        },
        Err(NoMemory) => Err(Reply::Refused(Refusal::NoMemory)),
    }
}

/// The audit of a setup by the schedule of a file.
fn judge_schedule<F: Shelf>(
    alloc: Global,
    setup: Setup,
    name: &str,
    shelf: &mut F,
    seen: &mut Seen,
) -> Result<Told, Reply>
    ensures free { IfOk result (λ told. IfSome (F.file shelf.old)
        (λ file. audit_refusal setup (file name.now) ≡ None)) }
    ensures done { IfOk result (λ told. (told_output told).status ≡ 0) }
    ensures output { IfOk result (λ told. IfSome (F.file shelf.old)
        (λ file. (turns : List ℕ) × AreTurns setup turns (file name.now)
        × (told_output told ≡ record { status = 0; text = audit_text (audited setup turns) }))) }
    ensures stops { IfErr result (Gives
        (λ o. IfSome (F.file shelf.old) (λ file. audit_refusal setup (file name.now) ≡ Some o))
        (λ role. (role ≡ Role.Schedule) × (Rose (F.faults shelf.old) (F.faults shelf.new)))) }
{
    match open_schedule(alloc, name, setup.boards().len() as u8, shelf, seen) {
        Ok(turns) => judge_turns(alloc, setup, &turns),
        Err(reply) => Err(reply),
    }
}

/// The audit of the setup of a file by the schedule of another.
pub fn ready<F: Shelf>(
    alloc: Global,
    name: &str,
    schedule: &str,
    shelf: &mut F,
    seen: &mut Seen,
) -> Result<Told, Reply>
    ensures ready { Ready (audit name.now schedule.now) (F.file shelf.old)
        (Rose (F.faults shelf.old) (F.faults shelf.new)) result }
    ensures done { IfOk result (λ told. (told_output told).status ≡ 0) }
    ensures prints { IfOk result (λ told. IfSome (F.file shelf.old)
        (λ file. (audit name.now schedule.now).prints file (told_output told).text)) }
{
    match open_setup(alloc, name, shelf, seen) {
        Ok(setup) => judge_schedule(alloc, setup, schedule, shelf, seen),
        Err(reply) => Err(reply),
    }
}

/// Does `audit`.
pub fn audit<F: Shelf>(alloc: Global, name: &str, schedule: &str, shelf: &mut F) -> Reply
    ensures { Comes (audit name.now schedule.now) (F.file shelf.old)
        (Rose (F.faults shelf.old) (F.faults shelf.new)) result }
{
    match ready(alloc, name, schedule, shelf, &mut Seen::nothing(alloc)) {
        Ok(told) => Reply::Answered(Answer::Audited(told)),
        Err(reply) => reply,
    }
}

/// The turns of the seeded schedule of a number, one after another.
fn turns_of(alloc: Global, setup: &Setup, seed: u64) -> Result<Vec<u8>, NoMemory>
    ensures turns { IfOk result (λ turns. turns.items ≡ turns_of seed setup.now) }
    ensures places { IfOk result (λ turns. AllByRecursion (IsPlaceOf setup.now) turns.items) }
{
    let mut left = SeededTurns::new(seed, setup.boards().len() as u8, setup.accesses());
    let mut turns = Vec::new(alloc);
    while let Some(turn) = left.next_turn() {
        let Ok(()) = turns.push(turn) else {
            return Err(NoMemory);
        };
    }
    Ok(turns)
}

/// The audit of a setup by the seeded schedule of a number.
fn judge_seeded(alloc: Global, setup: Setup, seed: u64) -> Result<Told, Reply>
    ensures free { IfOk result (λ told. harm_refusal (seeded_audit seed setup) ≡ None) }
    ensures output { IfOk result (λ told. told_output told
        ≡ record { status = 0; text = audit_text (seeded_audit seed setup) }) }
    ensures stops { IfErr result
        (Gives (λ o. harm_refusal (seeded_audit seed setup) ≡ Some o) (λ role. ⊥)) }
{
    match turns_of(alloc, &setup, seed) {
        Ok(turns) => judge_turns(alloc, setup, &turns),
        Err(NoMemory) => Err(Reply::Refused(Refusal::NoMemory)),
    }
}

/// The audit of the setup of a file by the seeded schedule of a number.
pub fn ready_seeded<F: Shelf>(
    alloc: Global,
    name: &str,
    seed: u64,
    shelf: &mut F,
    seen: &mut Seen,
) -> Result<Told, Reply>
    ensures ready { Ready (audit_seeded name.now seed) (F.file shelf.old)
        (Rose (F.faults shelf.old) (F.faults shelf.new)) result }
    ensures done { IfOk result (λ told. (told_output told).status ≡ 0) }
    ensures prints { IfOk result (λ told. IfSome (F.file shelf.old)
        (λ file. (audit_seeded name.now seed).prints file (told_output told).text)) }
{
    match open_setup(alloc, name, shelf, seen) {
        Ok(setup) => judge_seeded(alloc, setup, seed),
        Err(reply) => Err(reply),
    }
}

/// Does `audit` with a number in place of a schedule.
pub fn audit_seeded<F: Shelf>(alloc: Global, name: &str, seed: u64, shelf: &mut F) -> Reply
    ensures { Comes (audit_seeded name.now seed) (F.file shelf.old)
        (Rose (F.faults shelf.old) (F.faults shelf.new)) result }
{
    match ready_seeded(alloc, name, seed, shelf, &mut Seen::nothing(alloc)) {
        Ok(told) => Reply::Answered(Answer::Audited(told)),
        Err(reply) => reply,
    }
}
