//! `check`: the verdict on each table of a text of tables or of a setup.

ghost use Rattle.std.specs.Prelude.{◌≡◌, ◌<◌, ◌^◌, length, None, Some, IfErr, IfOk, IfSome, OnOk};
ghost use Rattle.fb_edge.specs.Outside.{Rose};
ghost use Rattle.fb_text.specs.Unread.{unread};
ghost use Rattle.setup_text.specs.Reading.{book_at, setup_at};
ghost use Rattle.fb_cli.specs.Report.{report};
ghost use Rattle.fb_cli.specs.Output.{if_accepted, on_read};
ghost use Rattle.fb_cli.specs.Check.{check, is_book, tables_at};
ghost use Rattle.fb_cli.specs.Replies.{Comes, Gives, Ready};

use crate::answers::{Answer, Outcome, Reply};
use crate::opening::{open, refuse};
use crate::report::report_on;
use crate::role::Role;
use crate::seen::Seen;
use class_words::is;
use fb_edge::Shelf;
use fb_text::{Scan, Text};
use setup_text::{read_book, read_setup};
use std::alloc::Global;

#[cfg(test)]
mod tests;

/// Whether a text is one of tables: its first word is `table`.
pub fn is_book(bytes: &[u8]) -> bool
    requires { length bytes.now < 2 ^ 31 }
    ensures { result ≡ is_book (unread bytes.now) }
{
    let mut scan = Scan::over(bytes);
    scan.next_line();
    match scan.next_word() {
        Some(word) => is(word, "table"),
        None => false,
    }
}

/// The report on a text of tables.
fn book_report(alloc: Global, bytes: &[u8]) -> Result<Text, Reply>
    requires { length bytes.now < 2 ^ 31 }
    ensures report { IfOk result
        (λ text. IfOk (book_at (unread bytes.now)) (λ tables. text.bytes ≡ report tables)) }
    ensures free { OnOk result
        (on_read Role.Setup (λ tables. if_accepted tables None) (book_at (unread bytes.now))
        ≡ None) }
    ensures stops { IfErr result (Gives (λ o.
        on_read Role.Setup (λ tables. if_accepted tables None) (book_at (unread bytes.now))
        ≡ Some o) (λ role. ⊥)) }
{
    match read_book(alloc, bytes) {
        Ok(tables) => report_on(alloc, &tables),
        Err(fault) => Err(refuse(alloc, Role::Setup, fault)),
    }
}

/// The report on the tables of a setup.
fn setup_report(alloc: Global, bytes: &[u8]) -> Result<Text, Reply>
    requires { length bytes.now < 2 ^ 31 }
    ensures report { IfOk result
        (λ text. IfOk (setup_at (unread bytes.now)) (λ s. text.bytes ≡ report s.tables)) }
    ensures free { OnOk result
        (on_read Role.Setup (λ s. if_accepted s.tables None) (setup_at (unread bytes.now)) ≡ None) }
    ensures stops { IfErr result (Gives (λ o.
        on_read Role.Setup (λ s. if_accepted s.tables None) (setup_at (unread bytes.now)) ≡ Some o)
        (λ role. ⊥)) }
{
    match read_setup(alloc, bytes) {
        Ok(setup) => report_on(alloc, setup.tables()),
        Err(fault) => Err(refuse(alloc, Role::Setup, fault)),
    }
}

/// The report on the tables of a text.
fn verdicts(alloc: Global, bytes: &[u8]) -> Result<Text, Reply>
    requires { length bytes.now < 2 ^ 31 }
    ensures report { IfOk result
        (λ text. IfOk (tables_at (unread bytes.now)) (λ tables. text.bytes ≡ report tables)) }
    ensures free { OnOk result
        (on_read Role.Setup (λ tables. if_accepted tables None) (tables_at (unread bytes.now))
        ≡ None) }
    ensures stops { IfErr result (Gives (λ o.
        on_read Role.Setup (λ tables. if_accepted tables None) (tables_at (unread bytes.now))
        ≡ Some o) (λ role. ⊥)) }
{
    if is_book(bytes) {
        book_report(alloc, bytes)
    } else {
        setup_report(alloc, bytes)
    }
}

/// The report on the tables of a file, where all of them are in the class.
pub fn ready<F: Shelf>(
    alloc: Global,
    name: &str,
    shelf: &mut F,
    seen: &mut Seen,
) -> Result<Text, Reply>
    ensures ready { Ready (check name.now) (F.file shelf.old)
        (Rose (F.faults shelf.old) (F.faults shelf.new)) result }
    ensures report { IfOk result (λ text.
        IfSome (F.file shelf.old) (λ file. (check name.now).prints file text.bytes)) }
{
    match open(alloc, Role::Setup, name, shelf, seen) {
        Ok(bytes) => {
            let report = verdicts(alloc, &bytes);
            seen.keep(Role::Setup, bytes);
            report
        }
        Err(reply) => Err(reply),
    }
}

/// Does `check`.
pub fn check<F: Shelf>(alloc: Global, name: &str, shelf: &mut F) -> Reply
    ensures { Comes (check name.now) (F.file shelf.old)
        (Rose (F.faults shelf.old) (F.faults shelf.new)) result }
{
    match ready(alloc, name, shelf, &mut Seen::nothing(alloc)) {
        Ok(text) => Reply::Answered(Answer::Said {
            outcome: Outcome::Done,
            text,
        }),
        Err(reply) => reply,
    }
}
