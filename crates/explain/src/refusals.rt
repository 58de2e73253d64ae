//! Why a board cannot raise a request, and why a transaction cannot connect.

use crate::expected::{At, right_parting, say_phase};
use crate::say::{counted, say, say_access};
use crate::seen::{Phase, Seen};
use bus_signals::{Access, BoardNo, BusEvent};
use class_relation::{LocalAction, SnoopAction};
use class_words::{bus_event_text, local_event_text, state_text};
use fb_text::Text;
use journal::Connected;
use moesi_state::{Outcome, State};
use no_memory::NoMemory;
use std::alloc::Global;
use table_text::{write_answer, write_local_action};

/// Appends a board's name at the beginning of a sentence.
fn say_board(text: &mut Text, board: BoardNo, after: &str) -> Result<(), NoMemory> {
    counted(text, "Board ", u64::from(board.0), after)
}

/// Appends the alternatives of a cell for an access.
fn say_cell(text: &mut Text, actions: &[LocalAction]) -> Result<(), NoMemory> {
    let mut between = "";
    for action in actions {
        say(text, between)?;
        text.reserve(11)?;
        write_local_action(*action, text);
        between = " |";
    }
    say(text, "\n")
}

/// Appends the alternatives of a cell for a bus event.
fn say_answers(text: &mut Text, actions: &[SnoopAction]) -> Result<(), NoMemory> {
    let mut between = "";
    for action in actions {
        say(text, between)?;
        text.reserve(11)?;
        write_answer(*action, text);
        between = " |";
    }
    say(text, "\n")
}

/// Appends the cell of a board for its next access, as its table has it.
pub fn say_choice(
    text: &mut Text,
    seen: &Seen,
    board: BoardNo,
    access: &Access,
) -> Result<(), NoMemory> {
    say_board(text, board, " is to do ")?;
    say_access(text, access)?;
    say(text, ". Its table has ")?;
    say(text, state_text(seen.state(board, access.addr().line())))?;
    say(text, " ")?;
    say(text, local_event_text(access.kind()))?;
    say(text, " =")?;
    say_cell(text, seen.cell(board, access))
}

/// Appends that a board has no use for a request, or has one raised.
fn say_no_request(
    text: &mut Text,
    seen: &Seen,
    board: BoardNo,
    access: &Access,
) -> Result<(), NoMemory> {
    if seen.is_raised(board) {
        return say_board(text, board, " has raised its request already.\n");
    }
    say_board(text, board, " does not need the bus now. ")?;
    say_choice(text, seen, board, access)
}

/// Appends why a board cannot raise a request.
pub fn say_raise(
    text: &mut Text,
    seen: &Seen,
    at: At,
    board: BoardNo,
    access: &Access,
) -> Result<(), NoMemory> {
    at.show_word(text, 1)?;
    if seen.has_bus(board) {
        return say_phase(text, seen.phase());
    }
    say_no_request(text, seen, board, access)
}

/// Whether a cell has an alternative with this event and this outcome.
fn has_alternative(cell: &[LocalAction], event: BusEvent, outcome: Outcome) -> bool {
    cell.iter().any(|action| action.bus == Some(event) && action.result == outcome)
}

/// Whether a transaction may flush a victim of its master.
fn flushes(seen: &Seen, transaction: &Connected, access: &Access) -> bool {
    let state = seen.state(transaction.master, transaction.line);
    transaction.event == BusEvent::Flu
        && transaction.line != access.addr().line()
        && matches!(state, State::M | State::O)
}

/// The answer of a board in a transaction.
fn answer_of(transaction: &Connected, board: BoardNo) -> Option<SnoopAction> {
    for answer in transaction.answers.items() {
        if answer.board == board {
            return Some(answer.action);
        }
    }
    None
}

/// How many answers stand before that of a board. It is 0 where the board gives none.
fn place_of(transaction: &Connected, board: BoardNo) -> usize {
    let mut place = 0usize;
    for answer in transaction.answers.items() {
        if answer.board == board {
            return place;
        }
        place = place.saturating_add(1);
    }
    0
}

/// What a board may answer, where it has to.
fn asked<'a>(seen: &'a Seen, transaction: &Connected, board: BoardNo) -> Option<&'a [SnoopAction]> {
    let state = seen.state(board, transaction.line);
    if board == transaction.master || !state.holds() {
        return None;
    }
    match seen.table(board) {
        Some(table) => Some(table.snoop(state, transaction.event)),
        None => None,
    }
}

/// Whether a board answers as its table has it, and no board answers that is not asked.
fn answers_well(seen: &Seen, transaction: &Connected, board: BoardNo) -> bool {
    let answer = answer_of(transaction, board);
    match asked(seen, transaction, board) {
        Some(cell) => match answer {
            Some(action) => cell.contains(&action),
            None => false,
        },
        None => answer.is_none(),
    }
}

/// The first board whose answer is wrong.
fn first_wrong(seen: &Seen, transaction: &Connected) -> Option<BoardNo> {
    for place in 0..seen.machine.boards() {
        let board = BoardNo(place.saturating_add(1));
        if !answers_well(seen, transaction, board) {
            return Some(board);
        }
    }
    None
}

/// Appends why the answer of a board is wrong.
fn say_wrong(
    text: &mut Text,
    seen: &Seen,
    transaction: &Connected,
    board: BoardNo,
) -> Result<(), NoMemory> {
    let Some(cell) = asked(seen, transaction, board) else {
        return say_board(
            text,
            board,
            " is not asked: it is the master, or has no copy of the line.\n",
        );
    };
    say_board(
        text,
        board,
        " has a copy of the line, and has to answer as its table has it: ",
    )?;
    say(text, state_text(seen.state(board, transaction.line)))?;
    say(text, " ")?;
    say(text, bus_event_text(transaction.event))?;
    say(text, " =")?;
    say_answers(text, cell)
}

/// Appends that a master has no room for a line, or the line of the copy that has to go first.
fn say_full(
    alloc: Global,
    text: &mut Text,
    seen: &mut Seen,
    at: At,
    master: BoardNo,
) -> Result<(), NoMemory> {
    if let Some(line) = right_parting(alloc, seen, master)? {
        return at.show_right(text, line.bytes());
    }
    at.show_word(text, 4)?;
    say_board(
        text,
        master,
        " has no room for this line: another copy of its set has to go first.\n",
    )
}

/// Appends why a transaction whose event is right cannot connect.
fn say_unfit(
    alloc: Global,
    text: &mut Text,
    seen: &mut Seen,
    at: At,
    transaction: &Connected,
    is_flush: bool,
) -> Result<(), NoMemory> {
    if let Some(board) = first_wrong(seen, transaction) {
        at.show_word(text, place_of(transaction, board).saturating_add(8))?;
        return say_wrong(text, seen, transaction, board);
    }
    if !is_flush {
        return say_full(alloc, text, seen, at, transaction.master);
    }
    at.show_word(text, 4)?;
    say_board(
        text,
        transaction.master,
        " does not have to give this line up now.\n",
    )
}

/// Appends that a board has not been granted the bus.
fn say_ungranted(text: &mut Text, at: At, master: BoardNo, phase: Phase) -> Result<(), NoMemory> {
    at.show_word(text, 1)?;
    say_board(text, master, " has not been granted the bus. ")?;
    say_phase(text, phase)
}

/// Appends the cell of the master for its access, with carets under a word of the line.
fn say_choice_at(
    text: &mut Text,
    seen: &Seen,
    at: At,
    place: usize,
    master: BoardNo,
    access: &Access,
) -> Result<(), NoMemory> {
    at.show_word(text, place)?;
    say_choice(text, seen, master, access)
}

/// Appends why a transaction that flushes no victim cannot connect.
fn say_no_choice(
    alloc: Global,
    text: &mut Text,
    seen: &mut Seen,
    at: At,
    transaction: &Connected,
    access: &Access,
) -> Result<(), NoMemory> {
    let master = transaction.master;
    if transaction.line != access.addr().line() {
        return say_choice_at(text, seen, at, 4, master, access);
    }
    let cell = seen.cell(master, access);
    if !has_alternative(cell, transaction.event, transaction.outcome) {
        return say_choice_at(text, seen, at, 2, master, access);
    }
    say_unfit(alloc, text, seen, at, transaction, false)
}

/// Appends why a transaction cannot connect.
pub fn say_connect(
    alloc: Global,
    text: &mut Text,
    seen: &mut Seen,
    at: At,
    transaction: &Connected,
    access: &Access,
) -> Result<(), NoMemory> {
    let phase = seen.phase();
    if phase != Phase::Granted(transaction.master) {
        return say_ungranted(text, at, transaction.master, phase);
    }
    if flushes(seen, transaction, access) {
        return say_unfit(alloc, text, seen, at, transaction, true);
    }
    say_no_choice(alloc, text, seen, at, transaction, access)
}
