//! What a table may have in a cell.

use crate::say::say;
use bus_signals::{BUS_EVENTS, BusEvent, LocalEvent, Response};
use class_relation::{Cell, LocalAction, SnoopAction, permitted_local, permitted_snoop};
use fb_text::Text;
use moesi_state::{Outcome, STATES, State};
use no_memory::NoMemory;
use table_text::{write_answer, write_local_action};

/// Appends an alternative of an access where it is permitted, after a comma where one was said.
/// Whether one is said now.
fn say_local(
    text: &mut Text,
    state: State,
    event: LocalEvent,
    action: LocalAction,
    said: bool,
) -> Result<bool, NoMemory> {
    if !permitted_local(state, event, &action) {
        return Ok(said);
    }
    if said {
        say(text, ",")?;
    }
    text.reserve(11)?;
    write_local_action(action, text);
    Ok(true)
}

/// Appends the alternatives of an access with one result that are permitted.
fn say_result(
    text: &mut Text,
    state: State,
    event: LocalEvent,
    outcome: Outcome,
    said: bool,
) -> Result<bool, NoMemory> {
    let alone = LocalAction {
        result: outcome,
        bus: None,
    };
    let mut said = say_local(text, state, event, alone, said)?;
    for bus in BUS_EVENTS {
        let over_the_bus = LocalAction {
            result: outcome,
            bus: Some(bus),
        };
        said = say_local(text, state, event, over_the_bus, said)?;
    }
    Ok(said)
}

/// Appends the alternatives of an access that are permitted.
fn say_locals(text: &mut Text, state: State, event: LocalEvent) -> Result<(), NoMemory> {
    let mut said = false;
    for next in STATES {
        said = say_result(text, state, event, Outcome::Fixed(next), said)?;
    }
    for hit in STATES {
        for miss in STATES {
            said = say_result(text, state, event, Outcome::OnHit { hit, miss }, said)?;
        }
    }
    Ok(())
}

/// Appends an answer where it is permitted, after a comma where one was said. Whether one is said
/// now.
fn say_answer(
    text: &mut Text,
    state: State,
    event: BusEvent,
    action: SnoopAction,
    said: bool,
) -> Result<bool, NoMemory> {
    if !permitted_snoop(state, event, &action) {
        return Ok(said);
    }
    if said {
        say(text, ",")?;
    }
    text.reserve(11)?;
    write_answer(action, text);
    Ok(true)
}

/// The signals of a number from 0 to 7.
fn response(signals: u8) -> Response {
    Response {
        ch: signals % 2 == 1,
        di: signals / 2 % 2 == 1,
        sl: signals / 4 == 1,
    }
}

/// Appends the answers that are permitted in the cell of a bus event.
fn say_answers(text: &mut Text, state: State, event: BusEvent) -> Result<(), NoMemory> {
    let mut said = false;
    for result in STATES {
        for signals in 0..8u8 {
            let action = SnoopAction {
                result,
                response: response(signals),
            };
            said = say_answer(text, state, event, action, said)?;
        }
    }
    if said {
        return Ok(());
    }
    say(text, " nothing, since the event cannot come to this state")
}

/// Appends the alternatives that are permitted in a cell.
pub fn say_permitted(text: &mut Text, cell: Cell) -> Result<(), NoMemory> {
    say(text, "Permitted in this cell:")?;
    match cell {
        Cell::Local(state, event) => say_locals(text, state, event)?,
        Cell::Answer(state, event) => say_answers(text, state, event)?,
    }
    say(text, ".\n")
}
