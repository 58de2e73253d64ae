//! Whether parts of events are the same.

ghost use Rattle.std.specs.Prelude.{◌≡◌, ◌==◌, ◌↔◌, Bool, IsTrue};
ghost use Rattle.std.specs.List.{list_all};

use bus_signals::{Access, BoardNo, BusEvent, LineNo};
use journal::{Done, Source};
use moesi_state::State;

/// Whether two accesses are the same.
pub fn is_access(a: &Access, b: &Access) -> bool
    ensures { IsTrue result ↔ (a.now ≡ b.now) }
{
    *a == *b
}

/// Whether two accesses are the same, with the same reply.
pub fn is_done(a: &Option<Done>, b: &Option<Done>) -> bool
    ensures { IsTrue result ↔ (a.now ≡ b.now) }
{
    *a == *b
}

/// Whether two replies are the same.
pub fn is_reply(a: Option<u32>, b: Option<u32>) -> bool
    ensures { IsTrue result ↔ (a ≡ b) }
{
    a == b
}

/// Whether two sources are the same.
pub fn is_source(a: &Source, b: &Source) -> bool
    ensures { IsTrue result ↔ (a.now ≡ b.now) }
{
    *a == *b
}

/// Whether two lists of boards are the same.
pub fn are_boards(a: &[BoardNo], b: &[BoardNo]) -> bool
    ensures { IsTrue result ↔ (a.now ≡ b.now) }
{
    *a == *b
}

/// Whether two lists of states are the same.
pub fn are_states(a: &[(BoardNo, State)], b: &[(BoardNo, State)]) -> bool
    ensures { IsTrue result ↔ (a.now ≡ b.now) }
{
    *a == *b
}

/// Whether two states are the same.
pub fn is_state(a: State, b: State) -> bool
    ensures { IsTrue result ↔ (a ≡ b) }
{
    a == b
}

/// Whether two events are the same.
pub fn is_event(a: BusEvent, b: BusEvent) -> bool
    ensures { IsTrue result ↔ (a ≡ b) }
{
    a == b
}

/// Whether all of these facts hold.
pub fn all_hold(facts: &[bool]) -> bool
    ensures { result ≡ list_all (λ (fact : Bool). fact) facts.now }
{
    facts.iter().all(|fact| *fact)
}

/// Whether two boards are the same.
pub fn is_board(a: BoardNo, b: BoardNo) -> bool
    ensures { result ≡ (a == b) }
{
    a.0 == b.0
}

/// Whether two lines are the same.
pub fn is_line(a: LineNo, b: LineNo) -> bool
    ensures { IsTrue result ↔ (a ≡ b) }
{
    a == b
}

/// Whether two flags are the same.
pub fn is_bool(a: bool, b: bool) -> bool
    ensures { IsTrue result ↔ (a ≡ b) }
{
    a == b
}
