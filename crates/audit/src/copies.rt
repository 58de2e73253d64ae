//! The copies of lines that the boards hold, as one list of rows.

ghost use Rattle.std.specs.Prelude.{◌≡◌, ◌≤◌, ◌<◌, not, Bool, Option, None, Some, OnOk, filter, filter_map, if◌then◌else◌, is_some, map, option_map};
ghost use Rattle.moesi_state.specs.declared.State.{State};
ghost use Rattle.moesi_state.specs.States.{holds};
ghost use Rattle.bus_model.specs.Places.{count_where};
ghost use Rattle.bus_model.specs.Configuration.{Row, is_copy, row_at, has_row, state_at, words_at};
ghost use Rattle.bus_model.specs.Board.{is_in_set, oldest};
ghost use Rattle.bus_model.specs.Effects.{copy_as, is_before, with_row};
ghost use Rattle.audit.specs.Rows.{older_of, copy_with, place_for};

use bus_signals::{BoardNo, LineNo};
use moesi_state::State;
use no_memory::NoMemory;
use std::marker::Model;

/// The copy of a line that a board holds, with its words and the number that the board gave it when
/// it was filled. Contracts see it as a row of the model.
#[derive(Clone, Copy, Drop)]
pub struct Held {
    pub board: BoardNo,
    pub line: LineNo,
    pub state: State,
    pub words: [u32; 4],
    pub fill: u64,
}

impl Model for Held {
    ghost use Rattle.bus_model.specs.Configuration.{Row};

    ghost Value = { Row };

    ghost view = { λ r. record { board = r.board; line = r.line; state = r.state; words = r.words; fill = r.fill } };

    ghost inverse = { λ r. record { board = r.board; line = r.line; state = r.state; words = r.words; fill = r.fill } };
}

/// Whether a row is a copy of this line that this board holds.
fn is_copy(row: &Held, board: BoardNo, line: LineNo) -> bool
    ensures { result ≡ is_copy board line row.now }
{
    row.board.0 == board.0 && row.line.0 == line.0
}

/// The row of a board and a line.
pub fn row_of(rows: &[Held], board: BoardNo, line: LineNo) -> Option<Held>
    ensures { result ≡ row_at rows.now board line }
{
    for row in rows {
        if is_copy(row, board, line) {
            return Some(*row);
        }
    }
    None
}

/// The state of a board's copy of a line. It is I where there is no row.
pub fn state_of(rows: &[Held], board: BoardNo, line: LineNo) -> State
    ensures { result ≡ state_at rows.now board line }
{
    match row_of(rows, board, line) {
        Some(row) => row.state,
        None => State::I,
    }
}

/// The words of a board's copy of a line, or four words 0 where there is no row.
pub fn words_of(rows: &[Held], board: BoardNo, line: LineNo) -> [u32; 4]
    ensures { result ≡ words_at rows.now board line }
{
    match row_of(rows, board, line) {
        Some(row) => row.words,
        None => [0; 4],
    }
}

/// Whether a row is one of this board in the set of this line.
fn is_in_set(row: &Held, board: BoardNo, sets: u16, line: LineNo) -> bool
    requires { 1 ≤ sets }
    ensures { result ≡ is_in_set board sets line row.now }
{
    row.board.0 == board.0 && row.line.0 % u32::from(sets) == line.0 % u32::from(sets)
}

/// How many rows a board has in the set of a line.
pub fn count_in_set(rows: &[Held], board: BoardNo, sets: u16, line: LineNo) -> usize
    requires { 1 ≤ sets }
    ensures { result ≡ count_where (is_in_set board sets line) rows.now }
{
    let mut count = 0;
    for row in rows {
        count += usize::from(is_in_set(row, board, sets, line));
    }
    count
}

/// The row that was filled first, of the first ones of a list and the next.
fn older(first: Option<Held>, row: &Held) -> Held
    ensures { result ≡ older_of first row.now }
{
    match first {
        Some(first) if first.fill <= row.fill => first,
        _ => *row,
    }
}

/// The row that was filled first, of the first ones of a list and the next if it is in the set.
fn older_in_set(
    first: Option<Held>,
    row: &Held,
    board: BoardNo,
    sets: u16,
    line: LineNo,
) -> Option<Held>
    requires { 1 ≤ sets }
    ensures { result
        ≡ (if is_in_set board sets line row.now then Some (older_of first row.now) else first) }
{
    if is_in_set(row, board, sets, line) {
        Some(older(first, row))
    } else {
        first
    }
}

/// The row of a board in the set of a line that was filled first.
pub fn oldest_in_set(rows: &[Held], board: BoardNo, sets: u16, line: LineNo) -> Option<Held>
    requires { 1 ≤ sets }
    ensures { result ≡ oldest (filter (is_in_set board sets line) rows.now) }
{
    let mut first = None;
    for row in rows {
        first = older_in_set(first, row, board, sets, line);
    }
    first
}

/// Whether a row stands before another: by board, and then by fill number.
fn is_before(row: &Held, other: &Held) -> bool
    ensures { result ≡ is_before row.now other.now }
{
    row.board.0 < other.board.0 || row.board.0 == other.board.0 && row.fill < other.fill
}

/// The index at which a row is to stand.
fn place_for(rows: &[Held], row: &Held) -> usize
    ensures { result ≡ place_for row.now rows.now }
{
    for (i, other) in rows.iter().enumerate() {
        if is_before(row, other) {
            return i;
        }
    }
    rows.len()
}

/// Adds a row, in order.
pub fn add(rows: &mut Vec<Held>, row: Held) -> Result<(), NoMemory>
    ensures { OnOk result (rows.new.items ≡ with_row row rows.old.items) }
{
    let index = place_for(rows, &row);
    match rows.insert(index, row) {
        Ok(()) => Ok(()),
        Err(_) => Err(NoMemory),
    }
}

/// Gives up the row of a board and a line.
pub fn give_up(rows: &mut Vec<Held>, board: BoardNo, line: LineNo)
    ensures { rows.new.items
        ≡ filter_map (λ (row : Row). if is_copy board line row then None else Some row)
        rows.old.items }
{
    rows.retain(|row| !is_copy(row, board, line));
}

/// A row with this state and these words, if it is the copy of this line that this board holds.
fn changed(row: Held, board: BoardNo, line: LineNo, state: State, words: [u32; 4]) -> Held
    ensures { result ≡ copy_with board line state words row }
{
    if !is_copy(&row, board, line) {
        return row;
    }
    Held {
        board: row.board,
        line: row.line,
        state,
        words,
        fill: row.fill,
    }
}

/// Gives the row of a board and a line a state that holds a copy, and words.
fn keep(rows: &mut [Held], board: BoardNo, line: LineNo, state: State, words: [u32; 4])
    ensures { rows.new ≡ map (copy_with board line state words) rows.old }
{
    for row in rows.iter_mut() {
        *row = changed(*row, board, line, state, words);
    }
}

/// Gives the row of a board and a line a state and words. I leaves no row.
pub fn change(rows: &mut Vec<Held>, board: BoardNo, line: LineNo, state: State, words: [u32; 4])
    ensures { rows.new.items ≡ filter_map (copy_as board line state words) rows.old.items }
{
    if state.holds() {
        keep(rows.as_mut_slice(), board, line, state, words);
    } else {
        give_up(rows, board, line);
    }
}
