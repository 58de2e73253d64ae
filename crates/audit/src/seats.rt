//! The boards of a setup, each with its table and its script.

ghost use Rattle.std.specs.Prelude.{◌≡◌, ◌≤◌, slice_get};
ghost use Rattle.bus_model.specs.Setup.{table_of, shape_of, choose_of, number_of};
ghost use Rattle.bus_model.specs.Configuration.{present_access};
ghost use Rattle.audit.specs.First.{IsPlaceOf};
ghost use Rattle.audit.specs.Seats.{HasFrames};

use crate::course::{Course, course_of, is_among};
use bus_signals::{Access, BoardNo};
use class_relation::Table;
use setup::Setup;
use table_check::{Choose, Shape};

/// The cache of a board.
pub fn shape_of(setup: &Setup, board: BoardNo) -> Shape
    ensures shape { result ≡ shape_of setup.now board }
    ensures frames { HasFrames result }
{
    let boards = setup.boards();
    if !is_among(boards.len(), board) {
        return Shape::Plain;
    }
    boards[board.0 as usize - 1].shape
}

/// The chooser of a board.
pub fn choose_of(setup: &Setup, board: BoardNo) -> Choose
    requires { IsPlaceOf setup.now board }
    ensures { result ≡ choose_of setup.now board }
{
    setup.boards()[board.0 as usize - 1].choose
}

/// The number with which a board competes for the bus.
pub fn number_of(setup: &Setup, board: BoardNo) -> u16
    requires { IsPlaceOf setup.now board }
    ensures number { result ≡ number_of setup.now board }
    ensures low { 1 ≤ result }
    ensures high { result ≤ 1023 }
{
    setup.boards()[board.0 as usize - 1].number
}

/// The table of a board.
pub fn table_of(setup: &Setup, board: BoardNo) -> &Table
    requires { IsPlaceOf setup.now board }
    ensures { result.now ≡ table_of setup.now board }
{
    let spec = setup.boards()[board.0 as usize - 1];
    &setup.tables()[spec.table as usize]
}

/// The access at a place of a script, from 0.
fn access_at(script: &[Access], place: u32) -> Option<Access>
    ensures { result ≡ slice_get script.now place }
{
    script.get(place as usize).copied()
}

/// The access that a board is to do next.
pub fn present(setup: &Setup, boards: &[Course], board: BoardNo) -> Option<Access>
    requires { IsPlaceOf setup.now board }
    ensures { result ≡ present_access setup.now boards.now board }
{
    access_at(setup.script(board), course_of(boards, board).place)
}
