//! Whether a board may drop a row.

ghost use Rattle.std.specs.Prelude.{◌≡◌, ◌↔◌, IsTrue, Some};
ghost use Rattle.bus_model.specs.Board.{is_clean};
ghost use Rattle.bus_model.specs.Events.{Drop};
ghost use Rattle.backplane.specs.Parts.{IsPartOf};
ghost use Rattle.backplane.specs.Permits.{TellsFor};

use crate::parts::Parts;
use crate::permits::cell::{cell_of, line_of, wants_row};
use crate::permits::same::{all_hold, is_state};
use bus_signals::{Access, BoardNo, LineNo};
use moesi_state::State;

/// Whether a copy in this state may be given up without the bus.
fn is_clean(state: State) -> bool
    ensures { result ≡ is_clean state }
{
    state.holds() && !state.owns()
}

/// Whether this is the line of the victim.
pub fn is_victim(victim: Option<LineNo>, line: LineNo) -> bool
    ensures { IsTrue result ↔ (victim ≡ Some line) }
{
    victim == Some(line)
}

/// Whether a board with this present access may drop its row of a line: it wants a row and is full,
/// and the line is that of its victim, which is clean and is not held from it.
pub fn permits_drop(
    parts: &Parts,
    access: &Access,
    board: BoardNo,
    line: LineNo,
    before: State,
) -> bool
    requires { IsPartOf parts.now board }
    ensures { TellsFor parts.now board access.now (Drop board line before) result }
{
    let connected = parts.phase.is_connected(board);
    let wants = wants_row(cell_of(&parts.rack, board, access));
    let victim = is_victim(parts.rack.victim(board, line_of(access)), line);
    let same = is_state(parts.rack.state_of(board, line), before);
    let clean = is_clean(before);
    let held = parts.phase.held_by(board, line).is_some();
    all_hold(&[!connected, wants, victim, same, clean, !held])
}
