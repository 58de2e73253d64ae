//! The rows of `replay`, and what fails on the way.

use crate::tests::{ENDING, SETUP, TRACE, failing, files, said, words};
use crate::{plain, replay_file};
use backplane::assemble;
use fb_edge::{MemShelf, MemSink, SureShelf};
use setup_text::read_setup;
use std::test::Fail;

/// The setup, an empty file and the trace.
const FILES: [(&str, &str); 3] = [("F", SETUP), ("S", ""), ("T", TRACE)];

#[test]
fn traces_are_replayed(rt: HostRuntime) -> Result<(), Fail> {
    let rows = [
        ("replay F T", ENDING, 0),
        ("replay F S", "fault trace unfinished 1\n", 1),
        ("replay F F", "fault trace line 1 spelling\n", 1),
    ];
    for (text, want, status) in rows {
        let (printed, ended) = said(&rt, rt.alloc(), text, &FILES)?;
        assert_eq!(rt; printed.as_slice(), want.as_bytes(), "{text}");
        assert_eq!(rt; ended, status, "{text}");
    }
    Ok(())
}

/// Each call of the shelf fails in turn, until there is no such call.
#[test]
fn each_read_may_fail(rt: HostRuntime) -> Result<(), Fail> {
    let alloc = rt.alloc();
    let replay = words(alloc, "replay F T")?;
    for call in 1..7u64 {
        let mut shelf = MemShelf::new(files(alloc, &FILES)?, failing(alloc, &[call])?);
        let mut sink = MemSink::new(alloc, 100, 100, Vec::new(alloc))?;
        let status = plain(alloc, &replay, &mut shelf, &mut sink);
        let want = match call {
            1..=3 => "fault read setup\n",
            _ => "fault read trace\n",
        };
        assert_eq!(rt; status, 4, "call {call}");
        assert_eq!(rt; sink.taken(), want.as_bytes(), "call {call}");
    }
    Ok(())
}

#[test]
fn a_file_is_replayed(rt: HostRuntime) -> Result<(), Fail> {
    let alloc = rt.alloc();
    if SETUP.len() >= 1000 {
        return Err(Fail::from("too long"));
    }
    let Ok(setup) = read_setup(alloc, SETUP.as_bytes()) else {
        return Err(Fail::from("no setup"));
    };
    let Ok(machine) = assemble(alloc, setup) else {
        return Err(Fail::from("no machine"));
    };
    let mut shelf = SureShelf::new(files(alloc, &FILES)?);
    let Ok(machine) = replay_file(machine, &mut shelf, "T", 1000) else {
        return Err(Fail::from("no replay"));
    };
    assert_eq!(rt; machine.journal().len(), 8);
    Ok(())
}
