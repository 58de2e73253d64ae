//! `narrow`: the largest part of a table that is in the class.

ghost use Rattle.std.specs.Prelude.{◌≡◌, ◌≤◌, ◌++◌, Ok, Some, codes, length, IfErr, IfOk, IfSome};
ghost use Rattle.fb_edge.specs.Outside.{Rose};
ghost use Rattle.fb_text.specs.Unread.{unread};
ghost use Rattle.class_relation.specs.Tables.{Table};
ghost use Rattle.setup_text.specs.Alone.{alone_at};
ghost use Rattle.table_library.specs.Narrow.{narrow_of};
ghost use Rattle.fb_cli.specs.Output.{limit_of, output, with_file};
ghost use Rattle.fb_cli.specs.Narrow.{narrow};
ghost use Rattle.fb_cli.specs.Replies.{Comes, Ready, StopsAt, answer_output};

use crate::answers::{Answer, LINE, Outcome, Refusal, Reply};
use crate::library::spelled;
use crate::opening::{open, refuse};
use crate::role::Role;
use crate::seen::Seen;
use class_relation::{Name, Table};
use fb_edge::Shelf;
use fb_text::Text;
use no_memory::NoMemory;
use setup_text::read_table_alone;
use std::alloc::Global;
use table_check::Accepted;

#[cfg(test)]
mod tests;

/// Opens a text of one table.
fn open_table<F: Shelf>(
    alloc: Global,
    name: &str,
    shelf: &mut F,
    seen: &mut Seen,
) -> Result<Table, Reply>
    ensures within { IfOk result
        (λ table. IfSome (F.file shelf.old) (λ file. length (file name.now) ≤ limit_of Role.Setup)) }
    ensures table { IfOk result
        (λ table. IfSome (F.file shelf.old) (λ file. alone_at (unread (file name.now)) ≡ Ok table)) }
    ensures stops { IfErr result (StopsAt Role.Setup (F.file shelf.old) name.now
        (Rose (F.faults shelf.old) (F.faults shelf.new)) (with_file Role.Setup alone_at)) }
{
    let bytes = open(alloc, Role::Setup, name, shelf, seen)?;
    let read = read_table_alone(alloc, &bytes);
    seen.keep(Role::Setup, bytes);
    match read {
        Ok(table) => Ok(table),
        Err(fault) => Err(refuse(alloc, Role::Setup, fault)),
    }
}

/// The answer where no part of a table of this name is in the class.
fn nothing_left(alloc: Global, name: Name) -> Result<Answer, NoMemory>
    ensures { IfOk result (λ answer.
        answer_output answer ≡ output 9 (codes "narrow " ++ (name ++ codes ": none"))) }
{
    let mut text = Text::new(alloc);
    text.reserve(LINE)?;
    text.push(b"narrow ");
    text.push(name.bytes());
    text.push(b": none\n");
    Ok(Answer::Said {
        outcome: Outcome::NothingLeft,
        text,
    })
}

/// The largest part of the table of a file that is in the class.
pub fn ready<F: Shelf>(
    alloc: Global,
    name: &str,
    shelf: &mut F,
    seen: &mut Seen,
) -> Result<Accepted, Reply>
    ensures ready { Ready (narrow name.now) (F.file shelf.old)
        (Rose (F.faults shelf.old) (F.faults shelf.new)) result }
    ensures narrowed { IfOk result (λ narrowed. IfSome (F.file shelf.old) (λ file.
        IfOk (alone_at (unread (file name.now))) (λ table. narrow_of table ≡ Some narrowed))) }
{
    match open_table(alloc, name, shelf, seen) {
        Ok(table) => match table_library::narrow(alloc, &table) {
            Ok(Some(narrowed)) => Ok(narrowed),
            Ok(None) => Err(Reply::of(nothing_left(alloc, table.name()))),
            Err(NoMemory) => Err(Reply::Refused(Refusal::NoMemory)),
        },
        Err(reply) => Err(reply),
    }
}

/// Does `narrow`.
pub fn narrow<F: Shelf>(alloc: Global, name: &str, shelf: &mut F) -> Reply
    ensures { Comes (narrow name.now) (F.file shelf.old)
        (Rose (F.faults shelf.old) (F.faults shelf.new)) result }
{
    match ready(alloc, name, shelf, &mut Seen::nothing(alloc)) {
        Ok(narrowed) => Reply::of(spelled(alloc, &narrowed)),
        Err(reply) => reply,
    }
}
