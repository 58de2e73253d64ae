//! Whether the data of a transaction may move.

ghost use Rattle.std.specs.Prelude.{◌≡◌, ◌↔◌, IsTrue, List};
ghost use Rattle.bus_model.specs.Setup.{Setup};
ghost use Rattle.bus_model.specs.Configuration.{Configuration, present_access};
ghost use Rattle.bus_model.specs.Configuration as model;
ghost use Rattle.bus_model.specs.Events.{Event, DataPhase};
ghost use Rattle.bus_model.specs.Steps.{Can};
ghost use Rattle.backplane.specs.Parts.{CanCarry};
ghost use Rattle.backplane.specs.Permits.{SoundParts};

use crate::parts::Parts;
use crate::permits::same::{
    all_hold, are_boards, are_states, is_board, is_bool, is_done, is_event, is_line, is_source,
};
use bus_signals::Access;
use data_phase::expected;
use journal::{Carried, Connected, Takers};

/// Whether the same boards take the words, and memory where it does.
fn are_takers(a: &Takers, b: &Takers) -> bool
    ensures { IsTrue result ↔ (a.now ≡ b.now) }
{
    let memory = is_bool(a.memory, b.memory);
    let boards = are_boards(a.boards.items(), b.boards.items());
    all_hold(&[memory, boards])
}

/// Whether two data phases are the same.
fn is_carried(a: &Carried, b: &Carried) -> bool
    ensures { IsTrue result ↔ (a.now ≡ b.now) }
{
    let master = is_board(a.master, b.master);
    let event = is_event(a.event, b.event);
    let line = is_line(a.line, b.line);
    let source = is_source(&a.source, &b.source);
    let takers = are_takers(&a.takers, &b.takers);
    let states = are_states(a.states.items(), b.states.items());
    let done = is_done(&a.done, &b.done);
    all_hold(&[master, event, line, source, takers, states, done])
}

/// Whether the data of the transaction that is connected may move, as this data phase says.
/// `access` is the master's present access.
pub fn permits_data(
    parts: &Parts,
    connected: &Connected,
    access: Option<Access>,
    carried: &Carried,
) -> bool
    requires { CanCarry parts.now connected.now }
    ensures { (setup : Setup) (events : List Event) (c : Configuration)
        → SoundParts parts.now setup events c → c.phase ≡ model.Connected connected.now
        → access ≡ present_access setup c.boards connected.now.master
        → (IsTrue result ↔ Can setup c (DataPhase carried.now)) }
{
    let there = access.is_some();
    let same = is_carried(
        carried,
        &expected(&parts.rack, &parts.memory, connected, access),
    );
    all_hold(&[there, same])
}
