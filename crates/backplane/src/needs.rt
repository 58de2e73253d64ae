//! How much a machine needs for its whole life, computed from its setup beforehand.

ghost use Rattle.std.specs.Prelude.{◌≡◌, ◌≤◌, length};
ghost use Rattle.board.specs.Rack.{AllShapesFit, all_ways};
ghost use Rattle.board.specs.Station.{ShapeIsFit, room_of};
ghost use Rattle.backplane.specs.Needs.{needed};

use crate::sizes::Need;
use setup::Setup;
use table_check::{BoardSpec, Shape};

/// How many frames a cache has.
fn frames_in(shape: Shape) -> u32
    requires { ShapeIsFit shape }
    ensures { result ≡ room_of shape }
{
    match shape {
        Shape::Plain => 0,
        Shape::Cached { sets, ways } => u32::from(sets) * u32::from(ways),
    }
}

/// How many frames the caches of these boards have.
fn frames_of(boards: &[BoardSpec]) -> u32
    requires few { length boards.now ≤ 16 }
    requires fit { AllShapesFit boards.now }
    ensures { result ≡ all_ways boards.now }
{
    let mut frames = 0;
    for board in boards {
        frames += frames_in(board.shape);
    }
    frames
}

/// What `assemble` reserves for the machine of a setup, which no run of the setup exceeds: eight
/// events and one reply for each access, and a frame for each way of each set. It takes no memory
/// and refuses nothing.
pub fn need(setup: &Setup) -> Need
    ensures { result ≡ needed setup.now }
{
    let accesses = setup.accesses();
    Need {
        events: 8 * accesses,
        replies: accesses,
        frames: frames_of(setup.boards()),
    }
}
