//! Why a trace is not that of a complete run.

use crate::expected::{At, say_data, say_drop, say_grant, say_local};
use crate::reader::Reader;
use crate::refusals::{say_connect, say_raise};
use crate::replayed::{Stopped, follow};
use crate::say::{counted, say, say_access, several};
use crate::seen::Seen;
use crate::texts::is_short;
use backplane::assemble;
use bus_signals::{Access, BoardNo};
use fb_text::Text;
use no_memory::NoMemory;
use setup_text::read_setup;
use std::alloc::Global;
use trace_text::Event;

/// The board whose turn an event is.
fn turn_of(event: &Event) -> BoardNo {
    match event {
        Event::Local { board, .. } => *board,
        Event::Drop { board, .. } => *board,
        Event::Raise { board } => *board,
        Event::Grant { by, .. } => *by,
        Event::Connect(transaction) => transaction.master,
        Event::DataPhase(carried) => carried.master,
    }
}

/// Appends that the setup has no such board.
fn say_no_board(text: &mut Text, at: At, boards: u8) -> Result<(), NoMemory> {
    at.show(text)?;
    counted(text, "The setup has boards 1 to ", u64::from(boards), ".\n")
}

/// Appends that a board has nothing left to do.
fn say_finished(text: &mut Text, at: At, board: BoardNo) -> Result<(), NoMemory> {
    at.show(text)?;
    counted(
        text,
        "Board ",
        u64::from(board.0),
        " has done all of its accesses.\n",
    )
}

/// Appends why an event of a board that is to do an access is no step.
fn say_event(
    alloc: Global,
    text: &mut Text,
    seen: &mut Seen,
    at: At,
    event: &Event,
    access: &Access,
) -> Result<(), NoMemory> {
    match event {
        Event::Local { board, after, .. } => {
            say_local(alloc, text, seen, at, *board, access, *after)
        }
        Event::Drop { board, .. } => say_drop(alloc, text, seen, at, *board),
        Event::Raise { board } => say_raise(text, seen, at, *board, access),
        Event::Grant { by, .. } => say_grant(alloc, text, seen, at, *by),
        Event::Connect(transaction) => say_connect(alloc, text, seen, at, transaction, access),
        Event::DataPhase(carried) => say_data(alloc, text, seen, at, carried.master),
    }
}

/// Appends why an event is no step.
fn say_refused(
    alloc: Global,
    text: &mut Text,
    seen: &mut Seen,
    at: At,
    event: &Event,
) -> Result<(), NoMemory> {
    let board = turn_of(event);
    if !seen.has(board) {
        return say_no_board(text, at, seen.machine.boards());
    }
    match seen.present(board) {
        Some(access) => say_event(alloc, text, seen, at, event, &access),
        None => say_finished(text, at, board),
    }
}

/// The form of the line that begins with a word.
fn form(word: &[u8]) -> &'static str {
    match word {
        b"local" => "local B STATE to STATE done DONE",
        b"drop" => "drop B line L from STATE",
        b"raise" => "raise B",
        b"grant" => "grant B to B lines N rounds R",
        b"connect" => "connect B EVENT line L to RESULT answers ANSWERS \
             (none, or as 1=O+CH+DI 3=S+SL: boards in order, signals in the order CH DI SL)",
        b"data" => "data B EVENT line L from SOURCE into TAKERS states STATES done DONE",
        _ => "a line that begins with local, drop, raise, grant, connect or data, or the line end",
    }
}

/// Appends that a line spells no event.
fn say_misspelled(text: &mut Text, at: At) -> Result<(), NoMemory> {
    at.show(text)?;
    let mut reader = Reader::of_line(at.line);
    let first = match reader.next_word() {
        Some(word) => word.bytes,
        None => &[],
    };
    say(text, "This line spells no event. Expected ")?;
    say(text, form(first))?;
    say(
        text,
        ", with one space between two words, none at the ends, and a line feed.\n",
    )
}

/// Appends which board is unfinished, how many of its accesses are done, and its next one.
fn say_unfinished(text: &mut Text, seen: &Seen, board: BoardNo) -> Result<(), NoMemory> {
    let events = seen.machine.journal().len() as u64;
    say(text, "The trace ends after ")?;
    several(text, events, " event", "s")?;
    counted(text, ". Board ", u64::from(board.0), " has done ")?;
    several(text, seen.done(board) as u64, " access", "es")?;
    counted(text, " of ", seen.script(board).len() as u64, "")?;
    if let Some(access) = seen.present(board) {
        say(text, "; its next is ")?;
        say_access(text, &access)?;
    }
    say(text, ".\n")
}

/// The machine of a setup, with the setup. There is none where the text is no setup whose tables
/// are accepted.
fn opened(alloc: Global, bytes: &[u8]) -> Option<Seen> {
    if !is_short(bytes) {
        return None;
    }
    let Ok(setup) = read_setup(alloc, bytes) else {
        return None;
    };
    let Ok(same) = read_setup(alloc, bytes) else {
        return None;
    };
    match assemble(alloc, same) {
        Ok(machine) => Some(Seen { setup, machine }),
        Err(_) => None,
    }
}

/// Appends which board is unfinished, where one is.
fn say_end(text: &mut Text, seen: &Seen) -> Result<(), NoMemory> {
    match seen.machine.unfinished() {
        Some(board) => say_unfinished(text, seen, board),
        None => Ok(()),
    }
}

/// Appends why a trace was followed no further.
fn say_stopped(
    alloc: Global,
    text: &mut Text,
    seen: &mut Seen,
    stopped: &Stopped,
) -> Result<(), NoMemory> {
    match stopped {
        Stopped::AtEnd => say_end(text, seen),
        Stopped::Misspelled { number, line } => {
            say_misspelled(
                text,
                At {
                    number: *number,
                    line,
                },
            )
        }
        Stopped::Refused {
            number,
            line,
            event,
        } => say_refused(
            alloc,
            text,
            seen,
            At {
                number: *number,
                line,
            },
            event,
        ),
    }
}

/// Why a trace is not that of a complete run, from the opening of a machine on.
fn run_reason(alloc: Global, seen: &mut Seen, trace: &[u8]) -> Result<Text, NoMemory> {
    let mut text = Text::new(alloc);
    let stopped = follow(&mut seen.machine, trace);
    say_stopped(alloc, &mut text, seen, &stopped)?;
    Ok(text)
}

/// Why a trace is not that of a complete run of the setup of a text. It is empty where it is.
pub fn trace_reason(alloc: Global, bytes: &[u8], trace: &[u8]) -> Result<Text, NoMemory> {
    match opened(alloc, bytes) {
        Some(seen) => {
            let mut seen = seen;
            run_reason(alloc, &mut seen, trace)
        }
        None => Ok(Text::new(alloc)),
    }
}
