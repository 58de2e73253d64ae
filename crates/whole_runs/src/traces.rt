//! Traces that are replayed, whole and in pieces of each small size.

use crate::machines::writer_and_reader;
use backplane::Machine;
use bus_signals::BoardNo;
use replayer::{Replay, ReplayFault, replay};
use std::alloc::Global;
use std::test::Fail;

/// The lines of a run that is complete but for its last event.
const ALL_BUT_ONE: &str = "raise 1\n\
    grant 1 to 1 lines 10 rounds 0\n\
    connect 1 rfo line 1 to M answers none\n\
    data 1 rfo line 1 from memory into none states 1=M done write 5 7\n\
    raise 2\n\
    grant 2 to 2 lines 9 rounds 0\n\
    connect 2 urd line 1 to I answers 1=M+DI\n";

/// The number of events of an accepted trace, or its fault.
fn told(answer: Result<Machine, ReplayFault>) -> Result<usize, ReplayFault> {
    match answer {
        Ok(machine) => Ok(machine.journal().len()),
        Err(fault) => Err(fault),
    }
}

/// What a trace comes to.
fn whole(alloc: Global, trace: &[u8]) -> Result<Result<usize, ReplayFault>, Fail> {
    let machine = writer_and_reader(alloc)?;
    Ok(told(replay(machine, trace)))
}

/// What a trace comes to when it is fed in pieces of this size.
fn in_pieces(alloc: Global, trace: &[u8], size: usize) -> Result<Result<usize, ReplayFault>, Fail> {
    let machine = writer_and_reader(alloc)?;
    let mut replay = Replay::start(machine);
    for piece in trace.chunks(size.max(1)) {
        replay.feed(piece);
    }
    Ok(told(replay.finish()))
}

/// Whether a trace comes to this, whole and in pieces of each small size.
fn comes_to(
    alloc: Global,
    trace: &[u8],
    wanted: &Result<usize, ReplayFault>,
) -> Result<bool, Fail> {
    let mut same = whole(alloc, trace)? == *wanted;
    for size in 1..6usize {
        if in_pieces(alloc, trace, size)? != *wanted {
            same = false;
        }
    }
    Ok(same)
}

/// Whether the run without its last event, followed by this text, comes to what is wanted.
fn goes_on_to(
    alloc: Global,
    more: &str,
    wanted: &Result<usize, ReplayFault>,
) -> Result<bool, Fail> {
    let trace = format!(in alloc; "{ALL_BUT_ONE}{more}")?;
    comes_to(alloc, trace.as_bytes(), wanted)
}

/// The number of letters `x` in a line that is too long for an event.
const LONG: usize = 300;

/// A line that is too long for an event, without its line feed.
fn long_line(alloc: Global) -> Result<Vec<u8>, Fail> {
    Ok(vec![in alloc; b'x'; LONG]?)
}

#[test]
fn traces_of_a_run(rt: HostRuntime) -> Result<(), Fail> {
    let rows = [
        (
            "data 2 urd line 1 from 1 into none states 2=I 1=M done read 5 = 7\nend\n\
             answer 2 1 5 7\n",
            Ok(8),
        ),
        (
            "data 2 urd line 1 from 1 into none states 2=I 1=M done read 5 = 7\n",
            Ok(8),
        ),
        (
            "data 2 urd line 1 from 1 into none states 2=I 1=M done read 5 = 100\nend\n",
            Err(ReplayFault::NotARun { line: 8 }),
        ),
        (
            "data 2 urd line 1 from 1 into none states 2=I 1=M done read 5 = 7\nraise 1\n",
            Err(ReplayFault::NotARun { line: 9 }),
        ),
        (
            "data 2 urd line 1 from 1 into none states 2=I 1=M done read 5 = 7\nend",
            Err(ReplayFault::Spelling { line: 9 }),
        ),
        (
            "data 2 urd line 1 from 1 into none states 2=I 1=M done read 5 = 7",
            Err(ReplayFault::Spelling { line: 8 }),
        ),
        ("data 2 urd", Err(ReplayFault::Spelling { line: 8 })),
        ("", Err(ReplayFault::Unfinished { board: BoardNo(2) })),
        (
            "end\nraise 2\n",
            Err(ReplayFault::Unfinished { board: BoardNo(2) }),
        ),
    ];
    for (more, wanted) in &rows {
        assert!(rt; goes_on_to(rt.alloc(), more, wanted)?, "{more}");
    }
    Ok(())
}

#[test]
fn traces_of_no_run(rt: HostRuntime) -> Result<(), Fail> {
    let rows = [
        ("", Err(ReplayFault::Unfinished { board: BoardNo(1) })),
        ("end\nx", Err(ReplayFault::Unfinished { board: BoardNo(1) })),
        ("end", Err(ReplayFault::Spelling { line: 1 })),
        ("\n", Err(ReplayFault::Spelling { line: 1 })),
        ("raise 01\n", Err(ReplayFault::Spelling { line: 1 })),
        (
            "raise 3\nraise 1\nend\n",
            Err(ReplayFault::NotARun { line: 1 }),
        ),
        ("raise 1\nraise 1\n", Err(ReplayFault::NotARun { line: 2 })),
        (
            "raise 1\ngrant 1 to 1 lines 10 rounds 1\n",
            Err(ReplayFault::NotARun { line: 2 }),
        ),
    ];
    for (trace, wanted) in &rows {
        assert!(rt; comes_to(rt.alloc(), trace.as_bytes(), wanted)?, "{trace}");
    }
    Ok(())
}

#[test]
fn a_long_line_is_no_event(rt: HostRuntime) -> Result<(), Fail> {
    let fault = Err(ReplayFault::Spelling { line: 1 });
    let mut line = long_line(rt.alloc())?;
    assert!(rt; comes_to(rt.alloc(), line.as_slice(), &fault)?);
    line.push(b'\n')?;
    assert!(rt; comes_to(rt.alloc(), line.as_slice(), &fault)?);
    Ok(())
}
