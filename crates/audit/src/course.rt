//! What each board has done.

ghost use Rattle.std.specs.Prelude.{◌≡◌, ◌^◌, ◌&&◌, nat_le};
ghost use Rattle.bus_model.specs.Places.{change_place};
ghost use Rattle.bus_model.specs.Configuration.{progress_of};
ghost use Rattle.bus_model.specs.Effects.{completed, filled, spent, asking};
ghost use Rattle.audit.specs.Parts.{PlacesBelow, FillsBelow, SpentBelow};

use bus_signals::BoardNo;
use std::marker::Model;

/// The accesses that a board has completed, the rows that it has filled and the draws that it has
/// spent, and whether it has raised a request. Contracts see it as the progress of the model.
#[derive(Clone, Copy, Drop)]
pub struct Course {
    pub place: u32,
    pub fills: u64,
    pub spent: u64,
    pub raised: bool,
}

impl Model for Course {
    ghost use Rattle.bus_model.specs.Configuration.{Progress};

    ghost Value = { Progress };

    ghost view = { λ p. record { place = p.place; fills = p.fills; spent = p.spent; raised = p.raised } };

    ghost inverse = { λ p. record { place = p.place; fills = p.fills; spent = p.spent; raised = p.raised } };
}

/// Whether a board is one of so many.
pub fn is_among(count: usize, board: BoardNo) -> bool
    ensures { result ≡ (nat_le 1 board && nat_le board count) }
{
    1 <= board.0 && board.0 as usize <= count
}

/// What a board has done. It is nothing where there is no such board.
pub fn course_of(boards: &[Course], board: BoardNo) -> Course
    ensures { result ≡ progress_of boards.now board }
{
    if is_among(boards.len(), board) {
        boards[board.0 as usize - 1]
    } else {
        Course {
            place: 0,
            fills: 0,
            spent: 0,
            raised: false,
        }
    }
}

/// A board has completed one more access.
pub fn complete(boards: &mut [Course], board: BoardNo)
    requires { PlacesBelow (2 ^ 31) boards.old }
    ensures { boards.new ≡ change_place completed boards.old board }
{
    if is_among(boards.len(), board) {
        let course = &mut boards[board.0 as usize - 1];
        course.place += 1;
    }
}

/// A board has filled one more row.
pub fn fill(boards: &mut [Course], board: BoardNo)
    requires { FillsBelow (2 ^ 63) boards.old }
    ensures { boards.new ≡ change_place filled boards.old board }
{
    if is_among(boards.len(), board) {
        let course = &mut boards[board.0 as usize - 1];
        course.fills += 1;
    }
}

/// A board has spent one more draw.
pub fn spend(boards: &mut [Course], board: BoardNo)
    requires { SpentBelow (2 ^ 63) boards.old }
    ensures { boards.new ≡ change_place spent boards.old board }
{
    if is_among(boards.len(), board) {
        let course = &mut boards[board.0 as usize - 1];
        course.spent += 1;
    }
}

/// A board raises or lowers its request.
pub fn ask(boards: &mut [Course], board: BoardNo, raised: bool)
    ensures { boards.new ≡ change_place (asking raised) boards.old board }
{
    if is_among(boards.len(), board) {
        let course = &mut boards[board.0 as usize - 1];
        course.raised = raised;
    }
}
