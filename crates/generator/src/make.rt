//! The generated setup of a number.

ghost use Rattle.std.specs.Prelude.{◌≡◌, ◌<◌, ◌≤◌, ◌+◌, ℕ, [], map, length, replicate, IfOk, OnOk};
ghost use Rattle.class_relation.specs.Rows.{rows};
ghost use Rattle.bus_model.specs.Turns.{seeded_word};
ghost use Rattle.generator.specs.Words.{generator_after};
ghost use Rattle.generator.specs.Generated.{access_of_kind, access_of_draws, with_access, dealt, shape_of_table, generated_board, numbers_to, generated};

use crate::tables::generated_tables;
use crate::words::{next_word, seeded};
use bus_signals::{Access, Addr};
use no_memory::NoMemory;
use rand_pcg::Lcg64Xsh32;
use setup::Setup;
use std::alloc::Global;
use table_check::{BoardSpec, Choose, Shape};

/// The number of all accesses.
const ACCESSES: u32 = 100_000;

fn memory(alloc: Global) -> Result<Vec<u32>, NoMemory>
    ensures { IfOk result (λ words. words.items ≡ replicate 256 0) }
{
    match vec![in alloc; 0; 256] {
        Ok(words) => Ok(words),
        Err(_) => Err(NoMemory),
    }
}

/// The board of a place, counted from 1.
fn board(n: u64, place: u8) -> BoardSpec
    requires low { 1 ≤ place }
    requires high { place ≤ 16 }
    ensures { result ≡ generated_board n place }
{
    let table = u32::from(place - 1) % 5;
    BoardSpec {
        number: 15 * u16::from(place),
        table,
        shape: shape(table),
        choose: Choose::Seed(n.wrapping_add(u64::from(place))),
    }
}

fn shape(table: u32) -> Shape
    ensures { result ≡ shape_of_table table }
{
    if table == 3 {
        Shape::Plain
    } else {
        Shape::Cached { sets: 4, ways: 2 }
    }
}

fn boards(alloc: Global, n: u64) -> Result<Vec<BoardSpec>, NoMemory>
    ensures { IfOk result (λ boards. boards.items ≡ map (generated_board n) (numbers_to 16)) }
{
    let Ok(mut boards) = Vec::with_capacity(alloc, 16) else {
        return Err(NoMemory);
    };
    for index in 0..16u8 {
        boards.push_reserved(board(n, index + 1));
    }
    Ok(boards)
}

fn access_of_kind(kind: u32, addr: Addr, word: u32) -> Access
    ensures { result ≡ access_of_kind kind addr word }
{
    if kind < 8 {
        Access::Read(addr)
    } else if kind < 14 {
        Access::Write(addr, word)
    } else if kind == 14 {
        Access::Pass(addr)
    } else {
        Access::Flush(addr)
    }
}

/// The access that the next three words give.
fn next_access(generator: &mut Lcg64Xsh32) -> Access
    ensures access { (seed words : ℕ) → generator.old ≡ generator_after seed words
        → result
        ≡ access_of_draws (seeded_word seed words) (seeded_word seed (words + 1))
        (seeded_word seed (words + 2)) }
    ensures next { (seed words : ℕ) → generator.old ≡ generator_after seed words
        → generator.new ≡ generator_after seed (words + 3) }
{
    let x = next_word(generator);
    let y = next_word(generator);
    let z = next_word(generator);
    access_of_kind(x % 16, Addr(y % 256), z)
}

fn empty_script(alloc: Global) -> Result<Vec<Access>, NoMemory>
    ensures { IfOk result (λ script. script.items ≡ []) }
{
    match Vec::with_capacity(alloc, 6_250) {
        Ok(script) => Ok(script),
        Err(_) => Err(NoMemory),
    }
}

fn empty_scripts(alloc: Global) -> Result<Vec<Vec<Access>>, NoMemory>
    ensures { IfOk result (λ scripts. rows scripts.items ≡ replicate 16 []) }
{
    let Ok(mut scripts) = Vec::with_capacity(alloc, 16) else {
        return Err(NoMemory);
    };
    for _script in 0..16u8 {
        scripts.push_reserved(empty_script(alloc)?);
    }
    Ok(scripts)
}

/// Appends an access to the script at an index.
fn deal(scripts: &mut Vec<Vec<Access>>, index: usize, access: Access) -> Result<(), NoMemory>
    requires { index < length (rows scripts.old.items) }
    ensures { OnOk result
        (rows scripts.new.items ≡ with_access (rows scripts.old.items) index access) }
{
    match scripts[index].push(access) {
        Ok(()) => Ok(()),
        Err(_) => Err(NoMemory),
    }
}

/// The scripts, with all accesses dealt to the boards in turn.
fn scripts(alloc: Global, n: u64) -> Result<Vec<Vec<Access>>, NoMemory>
    ensures { IfOk result (λ scripts. rows scripts.items ≡ dealt n 100000) }
{
    let mut scripts = empty_scripts(alloc)?;
    let mut generator = seeded(n);
    for j in 0..ACCESSES {
        let access = next_access(&mut generator);
        deal(&mut scripts, (j % 16) as usize, access)?;
    }
    Ok(scripts)
}

/// The generated setup of a number: 64 lines of 0, five tables, 16 boards, and 100,000 accesses
/// that are drawn from the number.
pub fn make_setup(alloc: Global, n: u64) -> Result<Setup, NoMemory>
    ensures { IfOk result (λ setup. setup ≡ generated n) }
{
    let memory = memory(alloc)?;
    let tables = generated_tables(alloc)?;
    let boards = boards(alloc, n)?;
    let scripts = scripts(alloc, n)?;
    Ok(Setup::of(memory, false, tables, boards, scripts))
}
