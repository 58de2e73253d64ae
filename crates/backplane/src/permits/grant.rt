//! Whether the bus may be granted.

ghost use Rattle.std.specs.Prelude.{◌≡◌, ◌↔◌, IsTrue};
ghost use Rattle.arbiter.specs.Raised.{competitors};
ghost use Rattle.board.specs.Rack.{setup_of};
ghost use Rattle.bus_model.specs.Setup.{number_of};
ghost use Rattle.bus_model.specs.Configuration.{Idle};
ghost use Rattle.bus_model.specs.Events.{Grant};
ghost use Rattle.backplane.specs.Parts.{IsPartOf, phase_of};
ghost use Rattle.backplane.specs.Permits.{AreOfOneSetup, Competes, HasRaised, Tells, does_settle};

use crate::parts::Parts;
use crate::permits::same::all_hold;
use crate::phase::Phase;
use bus_signals::BoardNo;

/// Whether the bus is idle.
fn is_idle(phase: &Phase) -> bool
    ensures { IsTrue result ↔ (phase_of phase.now ≡ Idle) }
{
    matches!(phase, Phase::Idle)
}

/// Whether a board has raised a request. It may be a board that the machine does not have.
fn has_raised(parts: &Parts, board: BoardNo) -> bool
    requires { AreOfOneSetup parts.now }
    ensures { IsTrue result ↔ HasRaised parts.now board }
{
    if board.0 == 0 || board.0 > parts.rack.boards() {
        return false;
    }
    parts.requests.raised(board)
}

/// Whether a board competes for the bus. It may be a board that the machine does not have.
fn competes(parts: &Parts, board: BoardNo) -> bool
    requires { AreOfOneSetup parts.now }
    ensures { IsTrue result ↔ Competes parts.now board }
{
    if board.0 == 0 || board.0 > parts.rack.boards() {
        return false;
    }
    parts.requests.competes(board)
}

/// Whether the lines settle to these, in this many rounds, and show the number of the winner.
fn settles(parts: &Parts, winner: BoardNo, lines: u16, rounds: u8) -> bool
    requires { IsPartOf parts.now winner }
    ensures { result
        ≡ does_settle (competitors parts.now.requests)
        (number_of (setup_of parts.now.rack) winner) lines rounds }
{
    match parts.requests.contest() {
        Some(grant) => {
            parts.rack.number(winner) == grant.settled.lines
                && lines == grant.settled.lines
                && rounds == grant.settled.rounds
        }
        None => false,
    }
}

/// Whether a board wins the bus, and the lines settle to these in this many rounds.
fn wins(parts: &Parts, winner: BoardNo, lines: u16, rounds: u8) -> bool
    requires { AreOfOneSetup parts.now }
    ensures { IsTrue result
        ↔ (Competes parts.now winner
        × IsTrue (does_settle (competitors parts.now.requests)
        (number_of (setup_of parts.now.rack) winner) lines rounds)) }
{
    if !competes(parts, winner) {
        return false;
    }
    settles(parts, winner, lines, rounds)
}

/// Whether the bus may be granted to the winner in the turn of `by`: the bus is idle, `by` has
/// raised a request, the winner competes, the lines settle to these in this many rounds, and they
/// show the winner's number.
pub fn permits_grant(parts: &Parts, by: BoardNo, winner: BoardNo, lines: u16, rounds: u8) -> bool
    requires { AreOfOneSetup parts.now }
    ensures { Tells parts.now (Grant by winner lines rounds) result }
{
    let idle = is_idle(&parts.phase);
    let raised = has_raised(parts, by);
    let wins = wins(parts, winner, lines, rounds);
    all_hold(&[idle, raised, wins])
}
