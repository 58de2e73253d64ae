//! Files that are opened and read, or refused.

ghost use Rattle.std.specs.Prelude.{◌≡◌, ◌≤◌, ◌<◌, ◌^◌, Ok, length, true, IfOk, IfErr, IfSome};
ghost use Rattle.std.specs.List.{AllByRecursion, list_all};
ghost use Rattle.fb_edge.specs.Outside.{Rose};
ghost use Rattle.fb_text.specs.Unread.{unread};
ghost use Rattle.setup_text.specs.Reading.{schedule_at, setup_at};
ghost use Rattle.fb_cli.specs.Report.{is_accepted};
ghost use Rattle.fb_cli.specs.Output.{limit_of, with_accepted, with_file, within};
ghost use Rattle.fb_cli.specs.Command.{AreSetup};
ghost use Rattle.fb_cli.specs.Replies.{Gives, StopsAt, TellsFault};

use crate::answers::{Refusal, Reply, fault_answer, long_answer};
use crate::report::judge;
use crate::role::Role;
use crate::seen::Seen;
use fb_edge::{LoadFault, Shelf, load};
use setup_text::{Setup, SetupFault, read_schedule, read_setup};
use std::alloc::Global;

/// The most bytes of a file.
pub fn limit_of(role: Role) -> u64
    ensures limit { result ≡ limit_of role }
    ensures small { result < 2 ^ 31 }
{
    match role {
        Role::Setup => 8_388_608,
        Role::Schedule => 33_554_432,
        Role::Trace => 268_435_456,
    }
}

/// The bytes of a file, if it is not too long.
pub fn open<F: Shelf>(
    alloc: Global,
    role: Role,
    name: &str,
    shelf: &mut F,
    seen: &mut Seen,
) -> Result<Vec<u8>, Reply>
    ensures bytes { IfOk result
        (λ bytes. IfSome (F.file shelf.old) (λ file. file name.now ≡ bytes.items)) }
    ensures within { IfOk result (λ bytes. length bytes.items ≤ limit_of role) }
    ensures stops { IfErr result (StopsAt role (F.file shelf.old) name.now
        (Rose (F.faults shelf.old) (F.faults shelf.new)) (within role)) }
    ensures later { F.faults shelf.old ≤ F.faults shelf.new }
    ensures file { F.file shelf.new ≡ F.file shelf.old }
{
    seen.last = role;
    match load(alloc, shelf, name, limit_of(role)) {
        Ok(bytes) => Ok(bytes),
        Err(LoadFault::Failed) => Err(Reply::Refused(Refusal::Unread(role))),
        Err(LoadFault::NoMemory) => Err(Reply::Refused(Refusal::NoMemory)),
        Err(LoadFault::TooLong { taken }) => {
            if seen.keeps {
                seen.measure(shelf, taken);
            }
            Err(Reply::of(long_answer(alloc, role, taken)))
        }
    }
}

/// The reply where a text was not read.
pub fn refuse(alloc: Global, role: Role, fault: SetupFault) -> Reply
    ensures { Gives (TellsFault role fault) (λ other. ⊥) result }
{
    match fault {
        SetupFault::Bad { line, kind } => Reply::of(fault_answer(alloc, role, line, kind)),
        SetupFault::NoMemory => Reply::Refused(Refusal::NoMemory),
    }
}

/// Opens a setup.
pub fn open_setup<F: Shelf>(
    alloc: Global,
    name: &str,
    shelf: &mut F,
    seen: &mut Seen,
) -> Result<Setup, Reply>
    ensures setup { IfOk result
        (λ setup. IfSome (F.file shelf.old) (λ file. AreSetup setup (file name.now))) }
    ensures stops { IfErr result (StopsAt Role.Setup (F.file shelf.old) name.now
        (Rose (F.faults shelf.old) (F.faults shelf.new)) (with_file Role.Setup setup_at)) }
    ensures later { F.faults shelf.old ≤ F.faults shelf.new }
    ensures file { F.file shelf.new ≡ F.file shelf.old }
{
    let bytes = open(alloc, Role::Setup, name, shelf, seen)?;
    let read = read_setup(alloc, &bytes);
    seen.keep(Role::Setup, bytes);
    match read {
        Ok(setup) => Ok(setup),
        Err(fault) => Err(refuse(alloc, Role::Setup, fault)),
    }
}

/// Opens a setup whose tables are in the class.
pub fn open_accepted<F: Shelf>(
    alloc: Global,
    name: &str,
    shelf: &mut F,
    seen: &mut Seen,
) -> Result<Setup, Reply>
    ensures setup { IfOk result
        (λ setup. IfSome (F.file shelf.old) (λ file. AreSetup setup (file name.now))) }
    ensures accepted { IfOk result (λ setup. list_all is_accepted setup.tables ≡ true) }
    ensures stops { IfErr result (StopsAt Role.Setup (F.file shelf.old) name.now
        (Rose (F.faults shelf.old) (F.faults shelf.new)) with_accepted) }
    ensures later { F.faults shelf.old ≤ F.faults shelf.new }
    ensures file { F.file shelf.new ≡ F.file shelf.old }
{
    let setup = open_setup(alloc, name, shelf, seen)?;
    match judge(alloc, &setup) {
        Ok(()) => Ok(setup),
        Err(reply) => Err(reply),
    }
}

/// Opens a schedule of so many boards.
pub fn open_schedule<F: Shelf>(
    alloc: Global,
    name: &str,
    boards: u8,
    shelf: &mut F,
    seen: &mut Seen,
) -> Result<Vec<u8>, Reply>
    requires low { 1 ≤ boards }
    requires high { boards ≤ 16 }
    ensures short { IfOk result (λ turns.
        IfSome (F.file shelf.old) (λ file. length (file name.now) ≤ limit_of Role.Schedule)) }
    ensures turns { IfOk result (λ turns.
        IfSome (F.file shelf.old)
        (λ file. schedule_at boards (unread (file name.now)) ≡ Ok turns.items)) }
    ensures places { IfOk result
        (λ turns. AllByRecursion (λ p. (1 ≤ p) × (p ≤ boards)) turns.items) }
    ensures stops { IfErr result (StopsAt Role.Schedule (F.file shelf.old) name.now
        (Rose (F.faults shelf.old) (F.faults shelf.new))
        (with_file Role.Schedule (schedule_at boards))) }
    ensures later { F.faults shelf.old ≤ F.faults shelf.new }
    ensures file { F.file shelf.new ≡ F.file shelf.old }
{
    let bytes = open(alloc, Role::Schedule, name, shelf, seen)?;
    let read = read_schedule(alloc, &bytes, boards);
    seen.keep(Role::Schedule, bytes);
    match read {
        Ok(turns) => Ok(turns),
        Err(fault) => Err(refuse(alloc, Role::Schedule, fault)),
    }
}
