//! What each event does to the parts of the auditor's machine.

ghost use Rattle.std.specs.Prelude.{◌≡◌, ◌≤◌, ◌^◌, ◌+◌, ◌==◌, OnOk, false, filter_map, is_some, length, map, if◌then◌else◌};
ghost use Rattle.std.specs.List.{list_any};
ghost use Rattle.bus_model.specs.Carrying.{master_words, state_in, state_of_master};
ghost use Rattle.bus_model.specs.Effects.{answered, asking, completed, put_copy, put_memory, row_as, spent, without_grant};
ghost use Rattle.bus_model.specs.Places.{change_place};
ghost use Rattle.bus_model.specs.Steps.{after_connect, after_grant};
ghost use Rattle.audit.specs.Parts.{shown, phase_of, CountsAreLow, PlacesBelow, SpentBelow};
ghost use Rattle.audit.specs.Rows.{answered_row};
ghost use Rattle.audit.specs.Steps.{any_answering_row, any_memory_words, any_taken_words, displaced, without_displaced, after_any, after_any_local, after_any_data};

use crate::carrying::{carried_into, master_words, memory_words};
use crate::copies::{Held, add, change, give_up, row_of, words_of};
use crate::course::{Course, ask, complete, course_of, fill, spend};
use crate::parts::{Parts, put_line};
use crate::phase::Phase;
use crate::room::displaced;
use bus_signals::{BoardNo, LineNo};
use data_phase::written;
use journal::{Answer, Carried, Connected, Done, Event};
use moesi_state::State;
use no_memory::NoMemory;
use setup::Setup;

/// The state that a list gives to a board.
fn state_in(states: &[(BoardNo, State)], board: BoardNo) -> Option<State>
    ensures { result ≡ state_in states.now board }
{
    for given in states {
        if given.0.0 == board.0 {
            return Some(given.1);
        }
    }
    None
}

/// Whether a board is one of those that take words.
fn takes(takers: &[BoardNo], board: BoardNo) -> bool
    ensures { result ≡ list_any (λ taker. taker == board) takers.now }
{
    let number = board.0;
    takers.iter().any(|taker| taker.0 == number)
}

/// The words of another board's row after a data phase.
fn taken_words(carried: &Carried, own: [u32; 4], row: &Held) -> [u32; 4]
    ensures { result ≡ any_taken_words carried.now own row.now }
{
    if takes(carried.takers.boards.items(), row.board) {
        carried_into(&carried.done, own, row.words)
    } else {
        row.words
    }
}

/// A row in a state and with words. In the state I there is no row.
fn row_as(row: &Held, state: State, words: [u32; 4]) -> Option<Held>
    ensures { result ≡ row_as state words row.now }
{
    if !state.holds() {
        return None;
    }
    Some(Held {
        board: row.board,
        line: row.line,
        state,
        words,
        fill: row.fill,
    })
}

/// A row after a data phase, but for the master's.
fn answering(row: &Held, carried: &Carried, own: [u32; 4]) -> Option<Held>
    ensures { result ≡ any_answering_row carried.now own row.now }
{
    if row.line.0 != carried.line.0 || row.board.0 == carried.master.0 {
        return Some(*row);
    }
    match state_in(carried.states.items(), row.board) {
        None => Some(*row),
        Some(state) => row_as(row, state, taken_words(carried, own, row)),
    }
}

/// Whether a row is left after a data phase.
fn stays(row: &Held, carried: &Carried, own: [u32; 4]) -> bool
    ensures { result ≡ is_some (any_answering_row carried.now own row.now) }
{
    answering(row, carried, own).is_some()
}

/// A row after a data phase that leaves it, and any other as it is.
fn answered_row(row: Held, carried: &Carried, own: [u32; 4]) -> Held
    ensures { result ≡ answered_row carried.now own row }
{
    match answering(&row, carried, own) {
        Some(row) => row,
        None => row,
    }
}

/// Each row that is left takes what a data phase gives it.
fn answer_each(rows: &mut [Held], carried: &Carried, own: [u32; 4])
    ensures { rows.new ≡ map (answered_row carried.now own) rows.old }
{
    for row in rows.iter_mut() {
        *row = answered_row(*row, carried, own);
    }
}

/// The rows after a data phase, but for the master's.
fn answer_all(rows: &mut Vec<Held>, carried: &Carried, own: [u32; 4])
    ensures { rows.new.items ≡ filter_map (any_answering_row carried.now own) rows.old.items }
{
    rows.retain(|row| stays(row, carried, own));
    answer_each(rows.as_mut_slice(), carried, own);
}

/// A board's copy of a line gets a state and words: a row that is there keeps its fill number, a
/// row that is not there is filled, and I leaves no row.
fn put_copy(
    parts: &mut Parts,
    board: BoardNo,
    line: LineNo,
    state: State,
    words: [u32; 4],
) -> Result<(), NoMemory>
    requires { CountsAreLow parts.old.boards.items }
    ensures { OnOk result
        (shown parts.new ≡ put_copy (shown parts.old) board line state words) }
{
    if row_of(&parts.rows, board, line).is_some() {
        change(&mut parts.rows, board, line, state, words);
        return Ok(());
    }
    if !state.holds() {
        return Ok(());
    }
    let row = Held {
        board,
        line,
        state,
        words,
        fill: course_of(&parts.boards, board).fills,
    };
    add(&mut parts.rows, row)?;
    fill(parts.boards.as_mut_slice(), board);
    Ok(())
}

/// The row that has to go where a board comes to a state without the bus goes.
fn displace(setup: &Setup, parts: &mut Parts, board: BoardNo, line: LineNo, state: State)
    ensures { shown parts.new
        ≡ without_displaced (shown parts.old) board
        (displaced setup.now (shown parts.old).rows board line state) }
{
    if let Some(victim) = displaced(setup, &parts.rows, board, line, state) {
        give_up(&mut parts.rows, board, victim.0);
    }
}

/// A board has completed an access without the bus: it spends a draw, and has no request any more.
fn finish(boards: &mut [Course], board: BoardNo)
    requires places { PlacesBelow (2 ^ 31) boards.old }
    requires draws { SpentBelow (2 ^ 63) boards.old }
    ensures { boards.new
        ≡ change_place (asking false) (change_place spent
        (change_place completed boards.old board) board) board }
{
    complete(boards, board);
    spend(boards, board);
    ask(boards, board, false);
}

/// A board gives up a grant that it may have.
fn give_back(phase: &mut Phase, board: BoardNo)
    ensures { phase_of phase.new ≡ without_grant (phase_of phase.old) board }
{
    if phase.is_granted(board) {
        *phase = Phase::Idle;
    }
}

/// A board completes its present access without the bus.
fn settle(
    setup: &Setup,
    parts: &mut Parts,
    board: BoardNo,
    state: State,
    done: &Done,
) -> Result<(), NoMemory>
    requires { CountsAreLow parts.old.boards.items }
    ensures { OnOk result
        (shown parts.new ≡ after_any_local setup.now (shown parts.old) board state done.now) }
{
    let line = done.access.addr().line();
    displace(setup, parts, board, line, state);
    let words = written(&done.access, words_of(&parts.rows, board, line));
    put_copy(parts, board, line, state, words)?;
    finish(parts.boards.as_mut_slice(), board);
    give_back(&mut parts.phase, board);
    Ok(())
}

/// The bus is granted to a board.
fn grant(parts: &mut Parts, winner: BoardNo)
    requires { length parts.old.boards.items ≤ 16 }
    ensures { shown parts.new ≡ after_grant (shown parts.old) winner }
{
    parts.arbitration.give(&parts.boards, winner);
    ask(parts.boards.as_mut_slice(), winner, false);
    parts.phase = Phase::Granted(winner);
}

/// Each answering board spends a draw.
fn spend_all(boards: &mut [Course], answers: &[Answer])
    requires counts { SpentBelow (2 ^ 62 + 1) boards.old }
    requires few { length answers.now ≤ 15 }
    ensures { boards.new ≡ answered boards.old answers.now }
{
    for answer in answers {
        spend(boards, answer.board);
    }
}

/// The master of a transaction spends a draw, and so does each answering board.
fn spend_draws(boards: &mut [Course], connected: &Connected)
    requires { SpentBelow (2 ^ 62) boards.old }
    ensures { boards.new
        ≡ answered (change_place spent boards.old connected.now.master) connected.now.answers }
{
    spend(boards, connected.master);
    spend_all(boards, connected.answers.items());
}

/// A transaction is connected.
fn connect(parts: &mut Parts, connected: &Connected)
    requires { CountsAreLow parts.old.boards.items }
    ensures { shown parts.new ≡ after_connect (shown parts.old) connected.now }
{
    spend_draws(parts.boards.as_mut_slice(), connected);
    parts.phase = Phase::Connected(connected.copy());
}

/// Memory takes what a data phase gives it.
fn remember(parts: &mut Parts, carried: &Carried, own: [u32; 4])
    ensures { own ≡ master_words (shown parts.old) carried.now
        → shown parts.new ≡ (if carried.now.takers.memory
        then put_memory (shown parts.old) carried.now.line
        (any_memory_words (shown parts.old) carried.now)
        else shown parts.old) }
{
    if carried.takers.memory {
        let words = memory_words(parts, carried, own);
        put_line(parts.memory.as_mut_slice(), carried.line, words);
    }
}

/// The state that a data phase gives its master.
fn state_of_master(carried: &Carried) -> State
    ensures { result ≡ state_of_master carried.now }
{
    match state_in(carried.states.items(), carried.master) {
        Some(state) => state,
        None => State::I,
    }
}

/// The master completes its access, if the data phase completes one.
fn complete_if(done: &Option<Done>, boards: &mut [Course], board: BoardNo)
    requires { PlacesBelow (2 ^ 31) boards.old }
    ensures { boards.new
        ≡ (if is_some done.now then change_place completed boards.old board else boards.old) }
{
    if done.is_some() {
        complete(boards, board);
    }
}

/// The data of the transaction that is connected moves.
fn carry(parts: &mut Parts, carried: &Carried) -> Result<(), NoMemory>
    requires { CountsAreLow parts.old.boards.items }
    ensures { OnOk result (shown parts.new ≡ after_any_data (shown parts.old) carried.now) }
{
    let own = master_words(parts, carried);
    remember(parts, carried, own);
    answer_all(&mut parts.rows, carried, own);
    put_copy(
        parts,
        carried.master,
        carried.line,
        state_of_master(carried),
        own,
    )?;
    complete_if(&carried.done, parts.boards.as_mut_slice(), carried.master);
    parts.phase = Phase::Idle;
    Ok(())
}

/// Does an event.
pub fn apply(setup: &Setup, parts: &mut Parts, event: &Event) -> Result<(), NoMemory>
    requires counts { CountsAreLow parts.old.boards.items }
    requires few { length parts.old.boards.items ≤ 16 }
    ensures { OnOk result (shown parts.new ≡ after_any setup.now (shown parts.old) event.now) }
{
    match event {
        Event::Local {
            board,
            after,
            done,
            ..
        } => settle(setup, parts, *board, *after, done),
        Event::Drop { board, line, .. } => {
            give_up(&mut parts.rows, *board, *line);
            Ok(())
        }
        Event::Raise { board } => {
            ask(parts.boards.as_mut_slice(), *board, true);
            Ok(())
        }
        Event::Grant { winner, .. } => {
            grant(parts, *winner);
            Ok(())
        }
        Event::Connect(connected) => {
            connect(parts, connected);
            Ok(())
        }
        Event::DataPhase(carried) => carry(parts, carried),
    }
}
