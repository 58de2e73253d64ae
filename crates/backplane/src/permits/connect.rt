//! Whether a transaction may be connected.

ghost use Rattle.std.specs.Prelude.{◌≡◌, ◌||◌, not};
ghost use Rattle.moesi_state.specs.Outcomes.{is_invalid};
ghost use Rattle.bus_model.specs.Events.{Connect};
ghost use Rattle.bus_model.specs.Steps.{ForAccess, ForVictim, Purpose};
ghost use Rattle.backplane.specs.Parts.{IsPartOf};
ghost use Rattle.backplane.specs.Permits.{TellsFor, TellsWhether};

use crate::parts::Parts;
use crate::permits::answering::do_answers_fit;
use crate::permits::cell::{cell_of, has_local, is_invalid, line_of, wants_row};
use crate::permits::drop::is_victim;
use crate::permits::same::{all_hold, is_event, is_line};
use bus_signals::{Access, BusEvent};
use class_relation::LocalAction;
use journal::Connected;
use moesi_state::Outcome;

/// Whether there is room for the row that an outcome may bring.
fn has_room(full: bool, outcome: &Outcome) -> bool
    ensures { result ≡ (not full || is_invalid outcome.now) }
{
    !full || is_invalid(outcome)
}

/// Whether a transaction serves the master's access: it is an alternative of the master's cell, and
/// there is room for the row that it may bring.
fn serves_access(parts: &Parts, access: &Access, connected: &Connected) -> bool
    requires { IsPartOf parts.now connected.now.master }
    ensures { TellsWhether parts.now (λ setup c. ForAccess setup c.rows connected.now access.now)
        result }
{
    let action = LocalAction {
        result: connected.outcome,
        bus: Some(connected.event),
    };
    let line = is_line(connected.line, line_of(access));
    let alternative = has_local(cell_of(&parts.rack, connected.master, access), &action);
    let full = parts
        .rack
        .victim(connected.master, connected.line)
        .is_some();
    let room = has_room(full, &connected.outcome);
    all_hold(&[line, alternative, room])
}

/// Whether a transaction flushes a victim that the master owns, to make room for its access.
fn serves_victim(parts: &Parts, access: &Access, connected: &Connected) -> bool
    requires { IsPartOf parts.now connected.now.master }
    ensures { TellsWhether parts.now (λ setup c. ForVictim setup c.rows connected.now access.now)
        result }
{
    let master = connected.master;
    let wants = wants_row(cell_of(&parts.rack, master, access));
    let victim = is_victim(parts.rack.victim(master, line_of(access)), connected.line);
    let owned = parts.rack.state_of(master, connected.line).owns();
    let flushes = is_event(connected.event, BusEvent::Flu);
    let given_up = is_invalid(&connected.outcome);
    all_hold(&[wants, victim, owned, flushes, given_up])
}

/// Whether a transaction has one of its two purposes.
fn has_purpose(parts: &Parts, access: &Access, connected: &Connected) -> bool
    requires { IsPartOf parts.now connected.now.master }
    ensures { TellsWhether parts.now (λ setup c. Purpose setup c.rows connected.now access.now)
        result }
{
    if serves_access(parts, access, connected) {
        return true;
    }
    serves_victim(parts, access, connected)
}

/// Whether a transaction may be connected, for its master's present access: the bus is granted to
/// the master, the transaction serves the access or flushes a victim, and the answers are those of
/// the other boards that hold the line.
pub fn permits_connect(parts: &Parts, access: &Access, connected: &Connected) -> bool
    requires { IsPartOf parts.now connected.now.master }
    ensures { TellsFor parts.now connected.now.master access.now (Connect connected.now) result }
{
    let granted = parts.phase.is_granted(connected.master);
    let purpose = has_purpose(parts, access, connected);
    let answers = do_answers_fit(&parts.rack, connected);
    all_hold(&[granted, purpose, answers])
}
