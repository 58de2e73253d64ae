//! Reading a text of one table.

ghost use Rattle.std.specs.Prelude.{◌<◌, ◌^◌, length};
ghost use Rattle.fb_text.specs.Unread.{unread};
ghost use Rattle.setup_text.specs.Alone.{alone_at, alone_here};
ghost use Rattle.setup_text.specs.Reading.{Answers};

use crate::fault::{SetupFault, SetupKind};
use crate::table_lines::table;
use crate::tables::Tables;
use crate::words::{bad, this_word};
use class_relation::Table;
use fb_text::Scan;
use std::alloc::Global;

/// Reads the table that begins on this line, after which no line has a word.
fn table_here(alloc: Global, scan: &mut Scan) -> Result<Table, SetupFault>
    ensures { Answers (λ t. t) result (alone_here scan.old) }
{
    this_word(scan, "table")?;
    let table = table(alloc, scan, &Tables::new(alloc))?;
    if scan.next_line() {
        return Err(bad(scan, SetupKind::UnknownWord));
    }
    Ok(table)
}

/// Reads a text of one table. A word after its `end` line is a fault.
pub fn read_table_alone(alloc: Global, bytes: &[u8]) -> Result<Table, SetupFault>
    requires { length bytes.now < 2 ^ 31 }
    ensures { Answers (λ t. t) result (alone_at (unread bytes.now)) }
{
    let mut scan = Scan::over(bytes);
    if !scan.next_line() {
        return Err(bad(&scan, SetupKind::NoEnd));
    }
    table_here(alloc, &mut scan)
}
