//! The explanations, each added to what a command printed.
//!
//! Each call leaves what stands in the text, and adds to it: a whole explanation, or nothing where
//! memory lacks or where nothing is refused.

ghost use Rattle.std.specs.Prelude.{◌≡◌, OnErr};
ghost use Rattle.explain.specs.Extends.{Extends};

use crate::asked::words_reason;
use crate::files::{length_reason, unread_reason};
use crate::texts::{alone_reason, schedule_reason, setup_reason, tables_reason};
use crate::trace::trace_reason;
use fb_text::Text;
use no_memory::NoMemory;
use std::alloc::Global;

/// Extends an explanation, where it was made.
fn append(text: &mut Text, reason: Result<Text, NoMemory>) -> Result<(), NoMemory>
    ensures appends { Extends text.old.bytes text.new.bytes }
    ensures none { OnErr result (text.new.bytes ≡ text.old.bytes) }
{
    let reason = reason?;
    text.reserve(reason.bytes().len())?;
    text.push(reason.bytes());
    Ok(())
}

/// Extends why a setup is refused: the first fault of its text, or the faults of its tables.
pub fn explain_setup(alloc: Global, bytes: &[u8], text: &mut Text) -> Result<(), NoMemory>
    ensures appends { Extends text.old.bytes text.new.bytes }
    ensures none { OnErr result (text.new.bytes ≡ text.old.bytes) }
{
    append(text, setup_reason(alloc, bytes))
}

/// Extends why a text of tables is refused: its first fault, or the faults of its tables.
pub fn explain_tables(alloc: Global, bytes: &[u8], text: &mut Text) -> Result<(), NoMemory>
    ensures appends { Extends text.old.bytes text.new.bytes }
    ensures none { OnErr result (text.new.bytes ≡ text.old.bytes) }
{
    append(text, tables_reason(alloc, bytes))
}

/// Extends why a text is not one table, or why nothing of its table is in the class.
pub fn explain_alone(alloc: Global, bytes: &[u8], text: &mut Text) -> Result<(), NoMemory>
    ensures appends { Extends text.old.bytes text.new.bytes }
    ensures none { OnErr result (text.new.bytes ≡ text.old.bytes) }
{
    append(text, alone_reason(alloc, bytes))
}

/// Extends why a text is no schedule of so many boards.
pub fn explain_schedule(
    alloc: Global,
    bytes: &[u8],
    boards: u8,
    text: &mut Text,
) -> Result<(), NoMemory>
    ensures appends { Extends text.old.bytes text.new.bytes }
    ensures none { OnErr result (text.new.bytes ≡ text.old.bytes) }
{
    append(text, schedule_reason(alloc, bytes, boards))
}

/// Extends why a trace is not that of a complete run of the setup of a text.
pub fn explain_trace(
    alloc: Global,
    bytes: &[u8],
    trace: &[u8],
    text: &mut Text,
) -> Result<(), NoMemory>
    ensures appends { Extends text.old.bytes text.new.bytes }
    ensures none { OnErr result (text.new.bytes ≡ text.old.bytes) }
{
    append(text, trace_reason(alloc, bytes, trace))
}

/// Extends why words ask for no command.
pub fn explain_words(alloc: Global, words: &[String], text: &mut Text) -> Result<(), NoMemory>
    ensures appends { Extends text.old.bytes text.new.bytes }
    ensures none { OnErr result (text.new.bytes ≡ text.old.bytes) }
{
    append(text, words_reason(alloc, words))
}

/// Extends that the file of this name was not read. The role says what it is, as `the schedule`.
pub fn explain_unread(
    alloc: Global,
    name: &str,
    role: &str,
    text: &mut Text,
) -> Result<(), NoMemory>
    ensures appends { Extends text.old.bytes text.new.bytes }
    ensures none { OnErr result (text.new.bytes ≡ text.old.bytes) }
{
    append(text, unread_reason(alloc, name, role))
}

/// Extends that the file of this name is too long: its length, where it is known, and the limit.
pub fn explain_length(
    alloc: Global,
    name: &str,
    length: Option<u64>,
    limit: u64,
    text: &mut Text,
) -> Result<(), NoMemory>
    ensures appends { Extends text.old.bytes text.new.bytes }
    ensures none { OnErr result (text.new.bytes ≡ text.old.bytes) }
{
    append(text, length_reason(alloc, name, length, limit))
}
