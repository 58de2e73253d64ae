//! The grant of the bus.

ghost use Rattle.std.specs.Prelude.{◌≡◌, ◌+◌, ◌≤◌, ◌<◌, ◌==◌, ◌&&◌, ◌++◌, ◌∷◌, [], true, length, take, find, unwrap_or, if◌then◌else◌};
ghost use Rattle.arbiter.specs.Contests.{IsContest};
ghost use Rattle.bus_model.specs.Settling.{settled_lines, settled_rounds, highest};
ghost use Rattle.bus_model.specs.Arbitration.{competing, competing_numbers, does_compete, winner_of};
ghost use Rattle.bus_model.specs.Configuration.{is_raised};
ghost use Rattle.bus_model.specs.Setup.{number_of};
ghost use Rattle.audit.specs.First.{IsPlaceOf};
ghost use Rattle.audit.specs.Parts.{shown};

use crate::parts::Parts;
use crate::seats::number_of;
use arbiter::{Settled, Steps, settle};
use bus_signals::BoardNo;
use setup::Setup;
use std::marker::Brand;
use std::sync::ledger::{Blank, Ledger};

/// Who wins the bus, and how the lines settle.
#[derive(Clone, Copy, Drop)]
pub struct Win {
    pub winner: BoardNo,
    pub settled: Settled,
}

/// Adds a number after the first ones of a list, if it competes, and returns how many it then has.
fn add_if(competes: bool, numbers: &mut [u16; 16], count: usize, number: u16) -> usize
    requires { count < 16 }
    ensures numbers { take result numbers.new
        ≡ take count numbers.old ++ (if competes then number ∷ [] else []) }
    ensures within { result ≤ count + 1 }
{
    if !competes {
        return count;
    }
    numbers[count] = number;
    count + 1
}

/// The numbers of the boards that compete, and how many they are.
fn competing(setup: &Setup, parts: &Parts) -> ([u16; 16], usize)
    requires { length parts.now.boards.items ≡ length setup.now.boards }
    ensures numbers { take result.1 result.0
        ≡ competing_numbers setup.now (shown parts.now).arbitration (shown parts.now).boards }
    ensures within { result.1 ≤ 16 }
{
    let mut numbers = [0; 16];
    let mut count = 0;
    for place in 0..setup.boards().len() as u8 {
        let board = BoardNo(place + 1);
        let competes = parts.arbitration.competes(&parts.boards, board);
        count = add_if(competes, &mut numbers, count, number_of(setup, board));
    }
    (numbers, count)
}

/// Settles a contest whose looks nobody counts.
fn settled<L: Ledger>(blank: Blank, numbers: &[u16]) -> Settled
    requires name { blank.name ≡ L.name }
    requires parts { blank.parts ≡ L.parts }
    requires some { 0 < blank.parts }
    requires contest { IsContest numbers.now }
    ensures lines { result.lines ≡ settled_lines numbers.now }
    ensures rounds { result.rounds ≡ settled_rounds numbers.now }
    ensures highest { result.lines ≡ highest numbers.now }
{
    settle(numbers, &mut Steps::<L>::new(blank))
}

/// Whether a board competes, and with this number.
fn wins(setup: &Setup, parts: &Parts, board: BoardNo, number: u16) -> bool
    requires board { IsPlaceOf setup.now board }
    requires boards { length parts.now.boards.items ≡ length setup.now.boards }
    ensures { result
        ≡ (does_compete (shown parts.now).arbitration (shown parts.now).boards board
        && (number_of setup.now board == number)) }
{
    let _boards = setup.boards(); // gives the number of boards to the prover
    parts.arbitration.competes(&parts.boards, board) && number_of(setup, board) == number
}

/// The first board that competes with this number, or no board.
fn winner(setup: &Setup, parts: &Parts, number: u16) -> BoardNo
    requires { length parts.now.boards.items ≡ length setup.now.boards }
    ensures { result
        ≡ unwrap_or (find (λ board. number_of setup.now board == number)
        (competing (shown parts.now).arbitration (shown parts.now).boards)) 0 }
{
    for place in 0..setup.boards().len() as u8 {
        let board = BoardNo(place + 1);
        if wins(setup, parts, board, number) {
            return board;
        }
    }
    BoardNo(0)
}

/// The grant of the bus, where some board has raised a request.
pub fn contest(setup: &Setup, parts: &Parts, board: BoardNo) -> Win
    requires board { IsPlaceOf setup.now board }
    requires boards { length parts.now.boards.items ≡ length setup.now.boards }
    requires raised { is_raised (shown parts.now).boards board ≡ true }
    ensures winner { result.winner
        ≡ winner_of setup.now (shown parts.now).arbitration (shown parts.now).boards }
    ensures lines { result.settled.lines
        ≡ settled_lines (competing_numbers setup.now (shown parts.now).arbitration
        (shown parts.now).boards) }
    ensures rounds { result.settled.rounds
        ≡ settled_rounds (competing_numbers setup.now (shown parts.now).arbitration
        (shown parts.now).boards) }
{
    let _boards = setup.boards(); // gives the limits of a setup to the prover
    let (numbers, count) = competing(setup, parts);
    let settled = settled::<Brand>(Blank::new(1), &numbers[..count]);
    Win {
        winner: winner(setup, parts, settled.lines),
        settled,
    }
}
