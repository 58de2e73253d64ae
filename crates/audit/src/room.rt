//! Room for a row: the row that has to go.

ghost use Rattle.std.specs.Prelude.{◌≡◌, ◌≤◌, if◌then◌else◌, None};
ghost use Rattle.bus_model.specs.Setup.{Cached};
ghost use Rattle.bus_model.specs.Board.{has_no_room, oldest, set_rows, victim};
ghost use Rattle.audit.specs.Steps.{displaced};

use crate::copies::{Held, count_in_set, oldest_in_set, state_of};
use crate::seats::shape_of;
use bus_signals::{BoardNo, LineNo};
use moesi_state::State;
use setup::Setup;
use table_check::Shape;

/// The oldest row of the set of a line, where the set has all its rows and the line is not held.
fn oldest_of_full(rows: &[Held], board: BoardNo, line: LineNo, sets: u16, ways: u16) -> Option<Held>
    requires { 1 ≤ sets }
    ensures { result
        ≡ (if has_no_room (Cached sets ways) rows.now board line
        then oldest (set_rows (Cached sets ways) rows.now board line)
        else None) }
{
    if state_of(rows, board, line).holds() {
        return None;
    }
    if count_in_set(rows, board, sets, line) < ways as usize {
        return None;
    }
    oldest_in_set(rows, board, sets, line)
}

/// The line and the state of the row that has to go before a board can fill a row of a line.
pub fn victim(setup: &Setup, rows: &[Held], board: BoardNo, line: LineNo) -> Option<(LineNo, State)>
    ensures { result ≡ victim setup.now rows.now board line }
{
    let Shape::Cached { sets, ways } = shape_of(setup, board) else {
        return None;
    };
    match oldest_of_full(rows, board, line, sets, ways) {
        Some(row) => Some((row.line, row.state)),
        None => None,
    }
}

/// The line and the state of the row that goes where a board comes to a state without the bus.
pub fn displaced(
    setup: &Setup,
    rows: &[Held],
    board: BoardNo,
    line: LineNo,
    state: State,
) -> Option<(LineNo, State)>
    ensures { result ≡ displaced setup.now rows.now board line state }
{
    if state.holds() {
        victim(setup, rows, board, line)
    } else {
        None
    }
}
