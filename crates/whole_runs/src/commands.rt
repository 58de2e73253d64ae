//! The commands `race` and `replay`, as the program calls them, over files in memory.

use crate::gates::{HeadStart, Meeting};
use crate::machines::counters_text;
use crate::races::{begins_with_board_one, came_more_often};
use fb_cli::top;
use fb_edge::{Gate, MemShelf, MemSink, OpenGate};
use journal::Event;
use std::alloc::{AllocError, Global};
use std::sync::Wait;
use std::test::Fail;
use std::thread::Threads;
use trace_text::read_event;

/// The words of a command line.
pub fn words(alloc: Global, text: &str) -> Result<Vec<String>, AllocError> {
    let mut words = Vec::new(alloc);
    for word in text.split(' ') {
        words.push(String::from_str(alloc, word)?)?;
    }
    Ok(words)
}

/// A file with its name.
pub fn file(alloc: Global, name: &str, text: &str) -> Result<(String, Vec<u8>), AllocError> {
    Ok((
        String::from_str(alloc, name)?,
        text.as_bytes().to_vec(alloc)?,
    ))
}

/// The setup of the counters as the file F, and a trace as the file T.
fn files(alloc: Global, trace: &str) -> Result<Vec<(String, Vec<u8>)>, Fail> {
    let setup = counters_text(alloc)?;
    let mut files = Vec::new(alloc);
    files.push(file(alloc, "F", setup.as_str())?)?;
    files.push(file(alloc, "T", trace)?)?;
    Ok(files)
}

/// What a command prints, and its status.
fn said<G: Gate + Sync, R: Threads + Wait + Sync>(
    rt: &R,
    alloc: Global,
    command: &str,
    trace: &str,
    gate: &G,
) -> Result<(String, u8), Fail> {
    let mut shelf = MemShelf::new(files(alloc, trace)?, Vec::new(alloc));
    let mut sink = MemSink::new(alloc, 100_000, 1000, Vec::new(alloc))?;
    let status = top(
        rt,
        alloc,
        &words(alloc, command)?,
        &mut shelf,
        &mut sink,
        gate,
    );
    match String::from_utf8(sink.taken().to_vec(alloc)?) {
        Ok(text) => Ok((text, status)),
        Err(_) => Err(Fail::from("no text")),
    }
}

/// The events of a run that was printed.
fn events_in(alloc: Global, text: &str) -> Result<Vec<Event>, Fail> {
    let mut events = Vec::new(alloc);
    for line in text.lines() {
        if line == "end" {
            return Ok(events);
        }
        match read_event(line.as_bytes()) {
            Some(event) => events.push(event)?,
            None => return Err(Fail::from("no event")),
        }
    }
    Err(Fail::from("no end"))
}

/// The text after the line `end` of a run that was printed.
fn ending_in(text: &str) -> Option<&str> {
    match text.split_once("\nend\n") {
        Some((_, ending)) => Some(ending),
        None => None,
    }
}

#[test]
fn race_runs_its_workers_beside_each_other(rt: HostRuntime) -> Result<(), Fail> {
    let alloc = rt.alloc();
    let gate = Meeting::new();
    let (text, status) = said(&rt, alloc, "race F", "", &gate)?;
    assert_eq!(rt; status, 0, "{text}");
    assert!(rt; gate.have_met());
    let events = events_in(alloc, text.as_str())?;
    assert!(rt; came_more_often(&events, &gate.calls), "{text}");
    Ok(())
}

// Turns of the caller's thread, or rounds, would let board 2 raise a request before board 1 has had
// the bus.
#[test]
fn race_goes_by_the_turns_of_its_workers(rt: HostRuntime) -> Result<(), Fail> {
    let alloc = rt.alloc();
    let gate = HeadStart::new();
    let (text, status) = said(&rt, alloc, "race F", "", &gate)?;
    assert_eq!(rt; status, 0, "{text}");
    assert!(rt; gate.was_seen());
    let events = events_in(alloc, text.as_str())?;
    assert!(rt; begins_with_board_one(&events), "{text}");
    assert!(rt; came_more_often(&events, &gate.calls), "{text}");
    Ok(())
}

#[test]
fn what_race_prints_is_replayed(rt: HostRuntime) -> Result<(), Fail> {
    let alloc = rt.alloc();
    let gate = HeadStart::new();
    let (trace, status) = said(&rt, alloc, "race F", "", &gate)?;
    assert_eq!(rt; status, 0, "{trace}");
    let (printed, ended) = said(&rt, alloc, "replay F T", trace.as_str(), &OpenGate)?;
    assert_eq!(rt; ended, 0, "{printed}");
    assert_eq!(rt;
        Some(printed.as_str()),
        ending_in(trace.as_str()),
        "{trace}"
    );
    Ok(())
}
