//! Whether a board may raise a request.

ghost use Rattle.bus_model.specs.Events.{Raise};
ghost use Rattle.backplane.specs.Parts.{IsPartOf};
ghost use Rattle.backplane.specs.Permits.{TellsFor};

use crate::parts::Parts;
use crate::permits::cell::{cell_of, needs_bus};
use crate::permits::same::all_hold;
use bus_signals::{Access, BoardNo};

/// Whether a board with this present access may raise a request: it has raised none, is neither
/// granted nor connected, and may need the bus.
pub fn permits_raise(parts: &Parts, access: &Access, board: BoardNo) -> bool
    requires { IsPartOf parts.now board }
    ensures { TellsFor parts.now board access.now (Raise board) result }
{
    let raised = parts.requests.raised(board);
    let granted = parts.phase.is_granted(board);
    let connected = parts.phase.is_connected(board);
    let needs = needs_bus(cell_of(&parts.rack, board, access));
    all_hold(&[!raised, !granted, !connected, needs])
}
