//! The explanation of a text that is refused.

ghost use Rattle.std.specs.Prelude.{◌<◌, ◌^◌, IsTrue, length};

use crate::fault::{Fault, Stop};
use crate::say::counted;
use crate::sentences::say_why;
use crate::setup_lines::{read_parts, read_turns};
use crate::shown::{can_be_shown, name_bytes, show};
use crate::tables::read_tables;
use crate::verdict::verdict_reason;
use fb_text::Text;
use no_memory::NoMemory;
use setup_text::{SetupFault, read_book, read_setup, read_table_alone};
use std::alloc::Global;

/// Appends the line of a fault and its sentences, or the bytes that keep the line from being shown.
fn explain(text: &mut Text, fault: &Fault) -> Result<(), NoMemory> {
    if !can_be_shown(fault.whole) {
        counted(text, "Line ", u64::from(fault.line), ": ")?;
        return name_bytes(text, fault.whole);
    }
    show(text, fault)?;
    say_why(text, fault)
}

/// The explanation of why a text was not read to its end. It is empty where it was.
fn explanation(alloc: Global, read: Result<(), Stop>) -> Result<Text, NoMemory> {
    let mut text = Text::new(alloc);
    match read {
        Ok(()) => {}
        Err(Stop::NoMemory) => return Err(NoMemory),
        Err(Stop::Fault(fault)) => {
            explain(&mut text, &fault)?;
        }
    }
    Ok(text)
}

/// Whether a text is short enough to be read.
pub fn is_short(bytes: &[u8]) -> bool
    ensures { IsTrue result → length bytes.now < 2 ^ 31 }
{
    bytes.len() < 2_147_483_648
}

/// Why a setup is refused. It is empty where it is not.
pub fn setup_reason(alloc: Global, bytes: &[u8]) -> Result<Text, NoMemory> {
    if is_short(bytes) {
        if let Ok(setup) = read_setup(alloc, bytes) {
            return verdict_reason(alloc, bytes, setup.tables());
        }
    }
    explanation(alloc, read_parts(alloc, bytes))
}

/// Why a text of tables is refused. It is empty where it is not.
pub fn tables_reason(alloc: Global, bytes: &[u8]) -> Result<Text, NoMemory> {
    if is_short(bytes) {
        if let Ok(tables) = read_book(alloc, bytes) {
            return verdict_reason(alloc, bytes, &tables);
        }
    }
    explanation(alloc, read_tables(alloc, bytes))
}

/// That a table begins where nothing is to stand.
fn another_table(alloc: Global, line: u32) -> Result<Text, NoMemory> {
    let mut text = Text::new(alloc);
    counted(
        &mut text,
        "Line ",
        u64::from(line),
        " begins another table, and one is wanted.\n",
    )?;
    Ok(text)
}

/// Why a text is not one table, or why its table is refused. It is empty where it is not.
pub fn alone_reason(alloc: Global, bytes: &[u8]) -> Result<Text, NoMemory> {
    if is_short(bytes) {
        if let Ok(_) = read_book(alloc, bytes) {
            if let Err(SetupFault::Bad { line, .. }) = read_table_alone(alloc, bytes) {
                return another_table(alloc, line);
            }
        }
    }
    tables_reason(alloc, bytes)
}

/// Why a text is no schedule of so many boards. It is empty where it is one.
pub fn schedule_reason(alloc: Global, bytes: &[u8], boards: u8) -> Result<Text, NoMemory> {
    explanation(alloc, read_turns(bytes, boards))
}
