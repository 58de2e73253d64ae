//! Searches in the cells of a table.

ghost use Rattle.std.specs.Prelude.{◌≡◌, ◌↔◌, IsTrue, not, is_some};
ghost use Rattle.std.specs.List.{list_any};
ghost use Rattle.class_relation.specs.Actions.{same_local, same_answer, same_bus};
ghost use Rattle.class_relation.specs.declared.LocalAction.{LocalAction};
ghost use Rattle.class_relation.specs.declared.SnoopAction.{SnoopAction};
ghost use Rattle.bus_model.specs.Board.{access_line, cell_of};
ghost use Rattle.board.specs.Rack.{IsBoard, setup_of};
ghost use Rattle.moesi_state.specs.Outcomes.{is_invalid, same_outcome};

use board::Rack;
use bus_signals::{Access, BoardNo, BusEvent, LineNo};
use class_relation::{LocalAction, SnoopAction};
use moesi_state::{Outcome, State};

/// Whether two outcomes are the same.
fn is_outcome(a: &Outcome, b: &Outcome) -> bool
    ensures { result ≡ same_outcome a.now b.now }
{
    match (*a, *b) {
        (Outcome::Fixed(a), Outcome::Fixed(b)) => a == b,
        (
            Outcome::OnHit { hit, miss },
            Outcome::OnHit {
                hit: other_hit,
                miss: other_miss,
            },
        ) => hit == other_hit && miss == other_miss,
        _ => false,
    }
}

/// Whether two alternatives have the same bus event, or both have none.
fn is_bus(a: Option<BusEvent>, b: Option<BusEvent>) -> bool
    ensures { result ≡ same_bus a b }
{
    match (a, b) {
        (None, None) => true,
        (Some(a), Some(b)) => a == b,
        _ => false,
    }
}

/// Whether two alternatives of a local event are the same.
fn is_local(a: &LocalAction, b: &LocalAction) -> bool
    ensures { result ≡ same_local a.now b.now }
{
    is_outcome(&a.result, &b.result) && is_bus(a.bus, b.bus)
}

/// Whether two answers are the same.
fn is_answer(a: &SnoopAction, b: &SnoopAction) -> bool
    ensures { result ≡ same_answer a.now b.now }
{
    *a == *b
}

/// Whether an action is one of the alternatives of a cell.
pub fn has_local(cell: &[LocalAction], action: &LocalAction) -> bool
    ensures { result ≡ list_any (λ (a : LocalAction). same_local a action.now) cell.now }
{
    cell.iter().any(|a| is_local(a, action))
}

/// Whether an answer is one of the alternatives of a cell.
pub fn has_answer(cell: &[SnoopAction], action: &SnoopAction) -> bool
    ensures { result ≡ list_any (λ (a : SnoopAction). same_answer a action.now) cell.now }
{
    cell.iter().any(|a| is_answer(a, action))
}

/// Whether an outcome is the fixed I.
pub fn is_invalid(outcome: &Outcome) -> bool
    ensures { result ≡ is_invalid outcome.now }
{
    matches!(outcome, Outcome::Fixed(State::I))
}

/// Whether some alternative of a cell has a bus event.
pub fn needs_bus(cell: &[LocalAction]) -> bool
    ensures { result ≡ list_any (λ (a : LocalAction). is_some a.bus) cell.now }
{
    cell.iter().any(|a| a.bus.is_some())
}

/// Whether some alternative of a cell may leave a copy.
pub fn wants_row(cell: &[LocalAction]) -> bool
    ensures { result ≡ list_any (λ (a : LocalAction). not (is_invalid a.result)) cell.now }
{
    cell.iter().any(|a| !is_invalid(&a.result))
}

/// The line of an access.
pub fn line_of(access: &Access) -> LineNo
    ensures { result ≡ access_line access.now }
{
    access.addr().line()
}

/// The alternatives that a board has for an access.
pub fn cell_of<'a>(rack: &'a Rack, board: BoardNo, access: &Access) -> &'a [LocalAction]
    requires { IsBoard rack.now board }
    ensures { result.now ≡ cell_of (setup_of rack.now) rack.now.rows board access.now }
{
    let state = rack.state_of(board, line_of(access));
    rack.table(board).local(state, access.kind())
}
