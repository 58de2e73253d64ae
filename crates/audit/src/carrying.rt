//! What a data phase says, and the words that it moves.

ghost use Rattle.std.specs.Prelude.{◌≡◌, Option};
ghost use Rattle.bus_model.specs.Carrying.{source_words, master_words};
ghost use Rattle.data_phase.specs.Seen.{carried_for};
ghost use Rattle.audit.specs.Parts.{shown};
ghost use Rattle.audit.specs.Steps.{carried_into, any_memory_words};

use crate::copies::words_of;
use crate::parts::{Parts, line_of};
use bus_signals::{Access, BoardNo, LineNo};
use data_phase::{carried_source, carried_states, carried_takers, done_for, written_by};
use journal::{Carried, Connected, Done, Source};

/// The words at a source. Where nobody gives words they are those of the master.
fn source_words(parts: &Parts, master: BoardNo, line: LineNo, source: &Source) -> [u32; 4]
    ensures { result ≡ source_words (shown parts.now) master line source.now }
{
    match source {
        Source::Nobody => words_of(&parts.rows, master, line),
        Source::Memory => line_of(&parts.memory, line),
        Source::Board(board) => words_of(&parts.rows, *board, line),
    }
}

/// What the data phase of a transaction says. `access` is the present access of its master.
pub fn carried(parts: &Parts, connected: &Connected, access: Access) -> Carried
    ensures { result ≡ carried_for (shown parts.now) connected.now (Option.Some access) }
{
    let source = carried_source(connected);
    let moved = source_words(parts, connected.master, connected.line, &source);
    Carried {
        master: connected.master,
        event: connected.event,
        line: connected.line,
        source,
        takers: carried_takers(connected),
        states: carried_states(connected),
        done: done_for(Some(access), connected.line, moved),
    }
}

/// The words of the master after a data phase.
pub fn master_words(parts: &Parts, carried: &Carried) -> [u32; 4]
    ensures { result ≡ master_words (shown parts.now) carried.now }
{
    let line = carried.line;
    if carried.event.fills_row() {
        let moved = source_words(parts, carried.master, line, &carried.source);
        written_by(&carried.done, moved)
    } else {
        written_by(&carried.done, words_of(&parts.rows, carried.master, line))
    }
}

/// Words that take the one that a transaction carries.
pub fn carried_into(done: &Option<Done>, own: [u32; 4], words: [u32; 4]) -> [u32; 4]
    ensures { result ≡ carried_into done.now own words }
{
    match done {
        None => words,
        Some(done) => {
            let offset = done.access.addr().offset() as usize;
            let mut words = words;
            words[offset] = own[offset];
            words
        }
    }
}

/// A line of memory after a data phase in which memory takes.
pub fn memory_words(parts: &Parts, carried: &Carried, own: [u32; 4]) -> [u32; 4]
    ensures { own ≡ master_words (shown parts.now) carried.now
        → result ≡ any_memory_words (shown parts.now) carried.now }
{
    if carried.event.writes_line() {
        own
    } else {
        carried_into(&carried.done, own, line_of(&parts.memory, carried.line))
    }
}
