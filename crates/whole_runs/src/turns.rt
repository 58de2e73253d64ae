//! Machines that take turns, and what they show.

use crate::machines::{assembled, has_board, machine, setup};
use backplane::{AssembleFault, Machine, Moved, Need, Why, need};
use bus_signals::{BoardNo, LineNo};
use moesi_state::State;
use std::test::Fail;

/// A turn of the board of this place, where there is one.
fn turn(machine: &mut Machine, place: u8) -> Option<Moved> {
    if has_board(machine, place) {
        Some(machine.advance(BoardNo(place)))
    } else {
        None
    }
}

/// Turns of these boards, one after another, and how many of them came to an event.
fn turns(machine: &mut Machine, places: &[u8]) -> usize {
    let mut events = 0usize;
    for place in places {
        if turn(machine, *place) == Some(Moved::Did) {
            events = events.saturating_add(1);
        }
    }
    events
}

/// The state of a board's copy of a line.
fn state(machine: &Machine, place: u8, line: u32) -> Option<State> {
    if !has_board(machine, place) {
        return None;
    }
    match machine.copy(BoardNo(place), LineNo(line)) {
        Some(copy) => Some(copy.0),
        None => Some(State::I),
    }
}

/// The words of a board's copy of a line, where it has one.
fn words(machine: &Machine, place: u8, line: u32) -> Option<[u32; 4]> {
    if !has_board(machine, place) {
        return None;
    }
    match machine.copy(BoardNo(place), LineNo(line)) {
        Some(copy) => Some(copy.1),
        None => None,
    }
}

/// The reply of the last access that a board has completed.
pub fn last_reply(machine: &Machine, place: u8) -> Option<u32> {
    if !has_board(machine, place) {
        return None;
    }
    match machine.replies(BoardNo(place)).last() {
        Some(entry) => entry.reply,
        None => None,
    }
}

/// The first word of a line of memory.
fn memory(machine: &Machine, line: u32) -> Option<u32> {
    if line >= machine.lines() {
        return None;
    }
    let words = machine.memory_line(LineNo(line));
    Some(words[0])
}

#[test]
fn a_write_waits_while_its_line_is_held(rt: HostRuntime) -> Result<(), Fail> {
    let mut machine = machine(
        rt.alloc(),
        "memory 1\n",
        "board 1 number 10 table cb cached 1 1 choose first\nread 0\nwrite 0 9\n\
         board 2 number 9 table cb cached 1 1 choose first\nread 0\nend\n",
    )?;
    assert_eq!(rt; turns(&mut machine, &[1, 1, 1, 1, 2, 2, 2]), 7);
    let held = Why::Line {
        master: BoardNo(2),
        line: LineNo(0),
    };
    assert_eq!(rt; turn(&mut machine, 1), Some(Moved::Waits(held)));
    assert_eq!(rt; machine.journal().len(), 7);
    assert_eq!(rt; turns(&mut machine, &[2, 1, 1, 1, 1]), 5);
    assert!(rt; machine.finished());
    assert_eq!(rt; turn(&mut machine, 1), Some(Moved::Finished));
    assert_eq!(rt; state(&machine, 1, 0), Some(State::M));
    assert_eq!(rt; state(&machine, 2, 0), Some(State::I));
    assert_eq!(rt; memory(&machine, 0), Some(0));
    assert_eq!(rt; last_reply(&machine, 2), Some(0));
    Ok(())
}

#[test]
fn the_highest_number_is_granted_the_bus(rt: HostRuntime) -> Result<(), Fail> {
    let mut machine = machine(
        rt.alloc(),
        "memory 1\n",
        "board 1 number 7 table un plain choose first\nread 0\n\
         board 2 number 10 table un plain choose first\nread 0\n\
         board 3 number 9 table un plain choose first\nread 0\nend\n",
    )?;
    assert_eq!(rt; turns(&mut machine, &[1, 2, 3, 3]), 4);
    let taken = Why::Bus { master: BoardNo(2) };
    assert_eq!(rt; turn(&mut machine, 1), Some(Moved::Waits(taken)));
    assert_eq!(rt; turns(&mut machine, &[2, 2]), 2);
    assert_eq!(rt; machine.unfinished(), Some(BoardNo(1)));
    Ok(())
}

/// A board with one frame that writes a word of line 0 and then one of line 1.
const TWO_WRITES: &str =
    "board 1 number 3 table cb cached 1 1 choose first\nwrite 0 1\nwrite 4 2\nend\n";

#[test]
fn what_a_run_needs_is_told_from_its_setup(rt: HostRuntime) -> Result<(), Fail> {
    let setup = setup(rt.alloc(), "memory 2\n", TWO_WRITES)?;
    let wanted = Need {
        events: 16,
        replies: 2,
        frames: 1,
    };
    assert_eq!(rt; need(&setup), wanted);
    Ok(())
}

// The second write takes eight of the events.
#[test]
fn an_owned_victim_is_flushed_first(rt: HostRuntime) -> Result<(), Fail> {
    let mut machine = machine(rt.alloc(), "memory 2\n", TWO_WRITES)?;
    assert_eq!(rt;
        turns(&mut machine, &[1, 1, 1, 1, 1, 1, 1, 1, 1, 1, 1, 1]),
        12
    );
    assert!(rt; machine.finished());
    assert_eq!(rt; memory(&machine, 0), Some(1));
    assert_eq!(rt; memory(&machine, 1), Some(0));
    assert_eq!(rt; state(&machine, 1, 1), Some(State::M));
    assert_eq!(rt; words(&machine, 1, 1), Some([2, 0, 0, 0]));
    assert_eq!(rt; state(&machine, 1, 0), Some(State::I));
    assert_eq!(rt; words(&machine, 1, 0), None);
    Ok(())
}

#[test]
fn rounds_go_on_to_the_end(rt: HostRuntime) -> Result<(), Fail> {
    let mut machine = machine(
        rt.alloc(),
        "memory 1\n",
        "board 1 number 10 table cb cached 1 1 choose first\nread 0\nwrite 0 9\n\
         board 2 number 9 table cb cached 1 1 choose first\nread 0\nend\n",
    )?;
    assert_eq!(rt; machine.round(), 2);
    for _ in 0..24 {
        let unfinished = !machine.finished();
        assert_eq!(rt; machine.round() > 0, unfinished);
    }
    assert!(rt; machine.finished());
    assert_eq!(rt; machine.round(), 0);
    Ok(())
}

#[test]
fn a_table_that_is_not_in_the_class_is_told(rt: HostRuntime) -> Result<(), Fail> {
    let assembled = assembled(
        rt.alloc(),
        "memory 1\n",
        "table x\nI read = I urd\nend\nboard 1 number 5 table un plain choose first\nend\n",
    )?;
    match assembled {
        Err(AssembleFault::TableRefused { table, verdict }) => {
            assert_eq!(rt; table, 4);
            assert_eq!(rt; verdict.faults().len(), 3);
            Ok(())
        }
        _ => Err(Fail::from("not refused")),
    }
}
