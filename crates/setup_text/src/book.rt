//! Reading a text of tables.

ghost use Rattle.std.specs.Prelude.{◌≡◌, ◌<◌, ◌≤◌, ◌^◌, List, length, OnOk, IfOk, IfErr};
ghost use Rattle.fb_text.specs.Places.{items, text_places};
ghost use Rattle.fb_text.specs.Unread.{unread};
ghost use Rattle.setup_text.specs.Spelling.{TableText, book_items};
ghost use Rattle.setup_text.specs.Values.{tables_of};
ghost use Rattle.setup_text.specs.Grammars.{book_grammar};
ghost use Rattle.setup_text.specs.Correct.{BookStands, IsBook, IsReadAs, IsFirstFault};
ghost use Rattle.setup_text.specs.Reading.{BookMode, Answers, GoesOn, then_lines, book_head, book_lines, book_at};

use crate::fault::{SetupFault, SetupKind};
use crate::table_lines::table;
use crate::tables::Tables;
use crate::words::{bad, this_word};
use class_relation::Table;
use fb_text::Scan;
use std::alloc::Global;

/// Reads one more table.
fn table_lines(alloc: Global, scan: &mut Scan, tables: &mut Tables) -> Result<(), SetupFault>
    ensures exact { GoesOn book_lines (λ _. BookMode.whole tables.new) result scan.new
        (then_lines book_lines scan.old (book_head tables.old scan.old.words)) }
    ensures shorter { OnOk result (length scan.new.lines ≤ length scan.old.lines) }
{
    this_word(scan, "table")?;
    let table = table(alloc, scan, tables)?;
    tables.push(table)?;
    Ok(())
}

fn book(alloc: Global, bytes: &[u8]) -> Result<Vec<Table>, SetupFault>
    requires { length bytes.now < 2 ^ 31 }
    ensures { Answers (λ v. v.items) result (book_at (unread bytes.now)) }
{
    let mut scan = Scan::over(bytes);
    let mut tables = Tables::new(alloc);
    while scan.next_line() {
        table_lines(alloc, &mut scan, &mut tables)?;
    }
    if tables.len() == 0 {
        return Err(bad(&scan, SetupKind::NoEnd));
    }
    Ok(tables.into_vec())
}

/// Reads a text of one or more tables.
pub fn read_book(alloc: Global, bytes: &[u8]) -> Result<Vec<Table>, SetupFault>
    requires { length bytes.now < 2 ^ 31 }
    // The text spells the tables that were read.
    ensures spelled { IfOk result (λ v. IsBook bytes.now v.items) }
    // Tables that the text spells are read.
    ensures only { (tables : List TableText) → BookStands tables
        → items (text_places bytes.now) ≡ book_items tables
        → IsReadAs (λ v. v.items) result (tables_of tables) }
    // A fault has the line and the kind of the first place at fault.
    ensures first { IfErr result (IsFirstFault book_grammar bytes.now) }
    // Which tables or which fault it is.
    ensures exact { Answers (λ v. v.items) result (book_at (unread bytes.now)) }
{
    book(alloc, bytes)
}
