//! How the bus is arbitrated.

ghost use Rattle.std.specs.Prelude.{◌≡◌, ◌≤◌, false, length, map, true};
ghost use Rattle.bus_model.specs.Places.{change_place};
ghost use Rattle.bus_model.specs.Configuration.{is_served};
ghost use Rattle.bus_model.specs.Arbitration.{is_waiting, does_any_wait, does_compete, won_by, marks_at_grant};
ghost use Rattle.audit.specs.Parts.{arbitration_of};

use crate::course::{Course, course_of, is_among};
use bus_signals::BoardNo;

/// How the bus is arbitrated: by the boards' numbers alone, or fairly, and then with a mark for each
/// board that was served.
#[derive(Drop)]
pub enum Arbitration {
    ByNumber,
    Fair(Vec<bool>),
}

/// Whether a board was served.
fn is_served(served: &[bool], board: BoardNo) -> bool
    ensures { result ≡ is_served served.now board }
{
    is_among(served.len(), board) && served[board.0 as usize - 1]
}

/// Whether a board has raised a request, and was not served.
fn is_waiting(served: &[bool], boards: &[Course], board: BoardNo) -> bool
    ensures { result ≡ is_waiting served.now boards.now board }
{
    course_of(boards, board).raised && !is_served(served, board)
}

/// Whether any board waits to be served.
fn does_any_wait(served: &[bool], boards: &[Course]) -> bool
    requires { length boards.now ≤ 16 }
    ensures { result ≡ does_any_wait served.now boards.now }
{
    for place in 0..boards.len() as u8 {
        if is_waiting(served, boards, BoardNo(place + 1)) {
            return true;
        }
    }
    false
}

/// Takes all marks away.
fn take_away(served: &mut [bool])
    ensures { served.new ≡ map (λ mark. false) served.old }
{
    for mark in served.iter_mut() {
        *mark = false;
    }
}

/// Takes the marks away where no board waits to be served.
fn clear(served: &mut [bool], boards: &[Course])
    requires { length boards.now ≤ 16 }
    ensures { served.new ≡ marks_at_grant served.old boards.now }
{
    if !does_any_wait(served, boards) {
        take_away(served);
    }
}

/// Marks a board as served.
fn mark(served: &mut [bool], board: BoardNo)
    ensures { served.new ≡ change_place (λ mark. true) served.old board }
{
    if is_among(served.len(), board) {
        served[board.0 as usize - 1] = true;
    }
}

impl Arbitration {
    /// Whether a board competes for the bus: it has raised a request, and fairly, if any board waits
    /// to be served, it does.
    pub fn competes(&self, boards: &[Course], board: BoardNo) -> bool
        requires { length boards.now ≤ 16 }
        ensures { result ≡ does_compete (arbitration_of self.now) boards.now board }
    {
        let raised = course_of(boards, board).raised;
        match self {
            Arbitration::ByNumber => raised,
            Arbitration::Fair(served) => {
                raised && (!does_any_wait(served, boards) || !is_served(served, board))
            }
        }
    }

    /// A board has won the bus, while these boards had raised requests.
    pub fn give(&mut self, boards: &[Course], winner: BoardNo)
        requires { length boards.now ≤ 16 }
        ensures { arbitration_of self.new ≡ won_by winner boards.now (arbitration_of self.old) }
    {
        match self {
            Arbitration::ByNumber => {}
            Arbitration::Fair(served) => {
                clear(served.as_mut_slice(), boards);
                mark(served.as_mut_slice(), winner);
            }
        }
    }
}
