//! `library`: one of the known tables.

ghost use Rattle.std.specs.Prelude.{◌≡◌, None, IfOk};
ghost use Rattle.table_text.specs.Writing.{written_table};
ghost use Rattle.table_library.specs.Protocols.{protocol_table};
ghost use Rattle.fb_cli.specs.Fileless.{library};
ghost use Rattle.fb_cli.specs.Replies.{Comes, answer_output};

use crate::answers::{Answer, Outcome, Reply};
use fb_text::Text;
use no_memory::NoMemory;
use std::alloc::Global;
use table_check::Accepted;
use table_library::Kind;
use table_text::write_table;

#[cfg(test)]
mod tests;

/// The written spelling of a table.
pub fn spelled(alloc: Global, table: &Accepted) -> Result<Answer, NoMemory>
    ensures { IfOk result (λ answer.
        answer_output answer ≡ record { status = 0; text = written_table table.now }) }
{
    let mut text = Text::new(alloc);
    write_table(table.table(), &mut text)?;
    Ok(Answer::Said {
        outcome: Outcome::Done,
        text,
    })
}

/// The written spelling of the table of a protocol.
fn known(alloc: Global, kind: Kind) -> Result<Answer, NoMemory>
    ensures { IfOk result (λ answer.
        answer_output answer
        ≡ record { status = 0; text = written_table (protocol_table kind) }) }
{
    let table = table_library::library(alloc, kind)?;
    spelled(alloc, &table)
}

/// Does `library`. It opens no file, so its answer is known whatever is known of the files.
pub fn library(alloc: Global, kind: Kind) -> Reply
    ensures { Comes (library kind) None ⊥ result }
{
    Reply::of(known(alloc, kind))
}
