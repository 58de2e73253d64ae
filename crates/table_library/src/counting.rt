//! What the boards and memory did on the bus, counted over a journal.

ghost use Rattle.std.specs.Prelude.{◌≡◌, ℕ, cond, ◌≤◌, ◌<◌, ◌^◌, ◌==◌, length};
ghost use Rattle.std.specs.List.{list_any};
ghost use Rattle.table_library.specs.Traffic.{line_words, words_read as reads_words, words_written as writes_words, words_moved as moves_words, connects as connects_for, words_by as moves_words_by, is_local as is_local_of, is_board as is_this_board, is_memory as is_from_memory, served_by as is_served_by, has_board as have_board, has_memory as have_memory, taken_by as is_taken_by, counts_of as counts_over, memory_counts, counts_at};

use crate::counts::{Counts, NO_COUNTS};
use crate::report::{MOST_BOARDS, Traffic};
use bus_signals::{BoardNo, BusEvent};
use journal::{Event, Source, Takers};

/// The words of a line.
const LINE_WORDS: u64 = 4;

fn one_if(test: bool) -> u64
    ensures { result ≡ cond test 1 0 }
{
    if test { 1 } else { 0 }
}

/// The words that a transaction of this event reads.
fn words_read(event: BusEvent) -> u64
    ensures words { result ≡ reads_words event }
    ensures few { result ≤ line_words }
{
    if event.fills_row() {
        LINE_WORDS
    } else {
        one_if(event.reads())
    }
}

/// The words that a transaction of this event writes.
fn words_written(event: BusEvent) -> u64
    ensures words { result ≡ writes_words event }
    ensures few { result ≤ line_words }
{
    if event.writes_line() {
        LINE_WORDS
    } else {
        one_if(event.writes_plain_word() || event.broadcasts())
    }
}

/// The words that a transaction of this event moves.
fn words_moved(event: BusEvent) -> u64
    ensures words { result ≡ moves_words event }
    ensures few { result ≤ 8 }
{
    words_read(event) + words_written(event)
}

/// Whether an event connects a transaction of this board.
fn connects(event: &Event, board: BoardNo) -> bool
    ensures { result ≡ connects_for board event.now }
{
    match event {
        Event::Connect(connected) => connected.master.0 == board.0,
        Event::Local { .. }
        | Event::Drop { .. }
        | Event::Raise { .. }
        | Event::Grant { .. }
        | Event::DataPhase(_) => false,
    }
}

/// The words that an event moves for a transaction of this board.
fn words_by(event: &Event, board: BoardNo) -> u64
    ensures words { result ≡ moves_words_by board event.now }
    ensures few { result ≤ 8 }
{
    match event {
        Event::DataPhase(carried) if carried.master.0 == board.0 => words_moved(carried.event),
        Event::DataPhase(_)
        | Event::Local { .. }
        | Event::Drop { .. }
        | Event::Raise { .. }
        | Event::Grant { .. }
        | Event::Connect(_) => 0,
    }
}

/// Whether an event completes an access of this board without the bus.
fn is_local(event: &Event, board: BoardNo) -> bool
    ensures { result ≡ is_local_of board event.now }
{
    match event {
        Event::Local { board: of, .. } => of.0 == board.0,
        Event::Drop { .. }
        | Event::Raise { .. }
        | Event::Grant { .. }
        | Event::Connect(_)
        | Event::DataPhase(_) => false,
    }
}

fn is_board(source: Source, board: BoardNo) -> bool
    ensures { result ≡ is_this_board board source }
{
    match source {
        Source::Board(of) => of.0 == board.0,
        Source::Nobody | Source::Memory => false,
    }
}

fn has_board(boards: &[BoardNo], board: BoardNo) -> bool
    ensures { result ≡ list_any (λ b. b == board) boards.now }
{
    boards.iter().any(|taker| taker.0 == board.0)
}

/// Whether an event is a data phase with words from this board.
fn served_by(event: &Event, board: BoardNo) -> bool
    ensures { result ≡ is_served_by (is_this_board board) event.now }
{
    match event {
        Event::DataPhase(carried) => is_board(carried.source, board),
        Event::Local { .. }
        | Event::Drop { .. }
        | Event::Raise { .. }
        | Event::Grant { .. }
        | Event::Connect(_) => false,
    }
}

/// Whether an event is a data phase in which this board takes words.
fn taken_by(event: &Event, board: BoardNo) -> bool
    ensures { result ≡ is_taken_by (have_board board) event.now }
{
    match event {
        Event::DataPhase(carried) => has_board(carried.takers.boards.items(), board),
        Event::Local { .. }
        | Event::Drop { .. }
        | Event::Raise { .. }
        | Event::Grant { .. }
        | Event::Connect(_) => false,
    }
}

/// Whether an event is a data phase with words from memory.
fn served_by_memory(event: &Event) -> bool
    ensures { result ≡ is_served_by is_from_memory event.now }
{
    match event {
        Event::DataPhase(carried) => matches!(carried.source, Source::Memory),
        Event::Local { .. }
        | Event::Drop { .. }
        | Event::Raise { .. }
        | Event::Grant { .. }
        | Event::Connect(_) => false,
    }
}

/// Whether an event is a data phase in which memory takes words.
fn taken_by_memory(event: &Event) -> bool
    ensures { result ≡ is_taken_by have_memory event.now }
{
    match event {
        Event::DataPhase(carried) => carried.takers.memory,
        Event::Local { .. }
        | Event::Drop { .. }
        | Event::Raise { .. }
        | Event::Grant { .. }
        | Event::Connect(_) => false,
    }
}

/// What a board did.
fn counts_of(journal: &[Event], board: BoardNo) -> Counts
    requires { length journal.now < 2 ^ 32 }
    ensures { result ≡ counts_over journal.now board }
{
    let mut connects_so_far = 0;
    let mut words = 0;
    let mut local = 0;
    let mut served = 0;
    let mut took = 0;
    for event in journal {
        connects_so_far += one_if(connects(event, board));
        words += words_by(event, board);
        local += one_if(is_local(event, board));
        served += one_if(served_by(event, board));
        took += one_if(taken_by(event, board));
    }
    Counts {
        connects: connects_so_far,
        words,
        local,
        served,
        took,
    }
}

/// How often memory was the source, and how often it took words.
fn counts_of_memory(journal: &[Event]) -> (u64, u64)
    requires { length journal.now < 2 ^ 32 }
    ensures { result ≡ memory_counts journal.now }
{
    let mut served = 0;
    let mut took = 0;
    for event in journal {
        served += one_if(served_by_memory(event));
        took += one_if(taken_by_memory(event));
    }
    (served, took)
}

/// What the boards and memory did, counted over a journal.
pub fn traffic(journal: &[Event]) -> Traffic
    requires { length journal.now < 2 ^ 32 }
    ensures boards { (board : ℕ) → 1 ≤ board → board ≤ 16
        → counts_at result board ≡ counts_over journal.now board }
    ensures memory { result.memory ≡ memory_counts journal.now }
{
    let mut boards = [NO_COUNTS; MOST_BOARDS];
    for place in 0..MOST_BOARDS {
        boards[place] = counts_of(journal, BoardNo(place as u8 + 1));
    }
    Traffic::of(boards, counts_of_memory(journal))
}
