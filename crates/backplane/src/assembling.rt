//! Making a machine from a setup.

ghost use Rattle.std.specs.Prelude.{◌≡◌, ◌≤◌, IfOk, IfErr, length, map};
ghost use Rattle.std.specs.List.{AllByRecursion};
ghost use Rattle.bus_model.specs.Setup.{AllInClass, BoardSpec};
ghost use Rattle.bus_model.specs.Configuration.{opening};
ghost use Rattle.table_check.specs.Accepted.{InClass};
ghost use Rattle.board.specs.Rack.{AllFit, empty_rack};
ghost use Rattle.backplane.specs.Machine.{opened};
ghost use Rattle.backplane.specs.Parts.{PartsShow};
ghost use Rattle.class_relation.specs.Tables.{Table};
ghost use Rattle.table_check.specs.Refusals.{IsRefusal};
ghost use Rattle.backplane.specs.Assembling.{IsRefused, RefusedAt, script_lengths};

use crate::histories::Histories;
use crate::machine::Machine;
use crate::needs::need;
use crate::parts::Parts;
use crate::phase::Phase;
use arbiter::Requests;
use board::Rack;
use bus_signals::BoardNo;
use class_relation::Table;
use memory_board::MemoryBoard;
use no_memory::NoMemory;
use setup::Setup;
use std::alloc::Global;
use table_check::{AcceptFault, Accepted, BoardSpec, Verdict, accept};

/// Why no machine was made: a table is not in the class, named by its place in the setup's list
/// from 0, or there was no memory.
#[derive(Drop)]
pub enum AssembleFault {
    TableRefused { table: u32, verdict: Verdict },
    NoMemory,
}

/// Why the table at this place is not accepted.
fn fault_at(place: u32, fault: AcceptFault) -> AssembleFault
    ensures { (table : Table) → IsRefusal table fault → RefusedAt table place result }
{
    match fault {
        AcceptFault::Refused { verdict, .. } => AssembleFault::TableRefused {
            table: place,
            verdict,
        },
        AcceptFault::NoMemory { .. } => AssembleFault::NoMemory,
    }
}

/// The table at this place of a setup's list, accepted.
fn accepted_at(alloc: Global, table: &Table, place: u32) -> Result<Accepted, AssembleFault>
    ensures same { IfOk result (λ accepted. accepted ≡ table.now) }
    ensures accepted { IfOk result (λ accepted. InClass table.now) }
    ensures refused { IfErr result (RefusedAt table.now place) }
{
    let Ok(copy) = table.copy() else {
        return Err(AssembleFault::NoMemory);
    };
    match accept(alloc, copy) {
        Ok(accepted) => Ok(accepted),
        Err(fault) => Err(fault_at(place, fault)),
    }
}

/// The tables of a setup, accepted.
fn accepted(alloc: Global, tables: &[Table]) -> Result<Vec<Accepted>, AssembleFault>
    requires { length tables.now ≤ 16 }
    ensures same { IfOk result (λ accepted. accepted.items ≡ tables.now) }
    ensures accepted { IfOk result (λ accepted. AllByRecursion InClass tables.now) }
    ensures refused { IfErr result (IsRefused tables.now) }
{
    let mut all = Vec::new(alloc);
    for (i, table) in tables.iter().enumerate() {
        let table = match accepted_at(alloc, table, i as u32) {
            Ok(table) => table,
            Err(fault) => return Err(fault),
        };
        let Ok(()) = all.push(table) else {
            return Err(AssembleFault::NoMemory);
        };
    }
    Ok(all)
}

/// A copy of these words.
fn copied(alloc: Global, words: &[u32]) -> Result<Vec<u32>, NoMemory>
    ensures { IfOk result (λ copy. copy.items ≡ words.now) }
{
    match words.to_vec(alloc) {
        Ok(words) => Ok(words),
        Err(_) => Err(NoMemory),
    }
}

/// The rack of these boards, without rows.
fn rack(alloc: Global, boards: &[BoardSpec], tables: Vec<Accepted>) -> Result<Rack, NoMemory>
    requires few { length boards.now ≤ 16 }
    requires fit { AllFit tables.items boards.now }
    ensures { IfOk result (λ rack. rack ≡ empty_rack tables.items boards.now) }
{
    match boards.to_vec(alloc) {
        Ok(boards) => Rack::new(alloc, boards, tables),
        Err(_) => Err(NoMemory),
    }
}

/// The numbers with which the boards compete.
fn numbers(alloc: Global, boards: &[BoardSpec]) -> Result<Vec<u16>, NoMemory>
    ensures { IfOk result
        (λ numbers. numbers.items ≡ map (λ (spec : BoardSpec). spec.number) boards.now) }
{
    let mut numbers = Vec::new(alloc);
    for board in boards {
        let Ok(()) = numbers.push(board.number) else {
            return Err(NoMemory);
        };
    }
    Ok(numbers)
}

/// The places of these boards, at the beginning of each script.
fn first_places(alloc: Global, boards: &[BoardSpec]) -> Result<Vec<u32>, NoMemory>
    ensures { IfOk result (λ places. places.items ≡ map (λ (spec : BoardSpec). 0) boards.now) }
{
    let mut places = Vec::new(alloc);
    for _board in boards {
        let Ok(()) = places.push(0) else {
            return Err(NoMemory);
        };
    }
    Ok(places)
}

/// How many accesses the script of each board has.
fn script_lengths(alloc: Global, setup: &Setup) -> Result<Vec<usize>, NoMemory>
    ensures { IfOk result (λ lengths. lengths.items ≡ script_lengths setup.now) }
{
    let mut lengths = Vec::new(alloc);
    for place in 0..setup.boards().len() as u8 {
        let length = setup.script(BoardNo(place + 1)).len();
        let Ok(()) = lengths.push(length) else {
            return Err(NoMemory);
        };
    }
    Ok(lengths)
}

/// The parts of a setup at its opening.
fn parts(alloc: Global, setup: &Setup, tables: Vec<Accepted>) -> Result<Parts, NoMemory>
    requires { tables.items ≡ setup.now.tables }
    ensures { IfOk result (λ parts. PartsShow setup.now (opening setup.now) parts) }
{
    let Ok(rack) = rack(alloc, setup.boards(), tables) else {
        return Err(NoMemory);
    };
    let Ok(words) = copied(alloc, setup.memory()) else {
        return Err(NoMemory);
    };
    let Ok(numbers) = numbers(alloc, setup.boards()) else {
        return Err(NoMemory);
    };
    let Ok(places) = first_places(alloc, setup.boards()) else {
        return Err(NoMemory);
    };
    Ok(Parts {
        rack,
        memory: MemoryBoard::new(words),
        requests: Requests::new(numbers, setup.fair()),
        phase: Phase::Idle,
        places,
    })
}

/// The machine of a setup, at its opening. All memory that it ever needs is taken here, and `need`
/// says how much.
pub fn assemble(alloc: Global, setup: Setup) -> Result<Machine, AssembleFault>
    ensures opening { IfOk result (λ machine. machine ≡ opened setup) }
    ensures accepted { IfOk result (λ machine. AllInClass setup) }
    ensures refused { IfErr result (IsRefused setup.tables) }
{
    let tables = match accepted(alloc, setup.tables()) {
        Ok(tables) => tables,
        Err(fault) => return Err(fault),
    };
    let Ok(parts) = parts(alloc, &setup, tables) else {
        return Err(AssembleFault::NoMemory);
    };
    let Ok(lengths) = script_lengths(alloc, &setup) else {
        return Err(AssembleFault::NoMemory);
    };
    let Ok(histories) = Histories::new(alloc, &lengths) else {
        return Err(AssembleFault::NoMemory);
    };
    let Ok(journal) = Vec::with_capacity(alloc, need(&setup).events as usize) else {
        return Err(AssembleFault::NoMemory);
    };
    Ok(Machine::of(setup, parts, journal, histories))
}
