//! The rows of `run`, and what fails on the way.

use crate::plain;
use crate::tests::{ENDING, SETUP, TRACE, failing, files, said, words};
use fb_edge::{MemShelf, MemSink, SureShelf, SureSink};
use std::test::Fail;

#[test]
fn runs_are_printed(rt: HostRuntime) -> Result<(), Fail> {
    let alloc = rt.alloc();
    let mut whole = String::from_str(alloc, TRACE)?;
    whole.push_str(ENDING)?;
    let rows = [
        ("run F S", whole.as_str(), 0),
        ("run F seed 3", whole.as_str(), 0),
        ("run F F", "fault schedule line 1 number\n", 3),
    ];
    for (text, want, status) in rows {
        let (printed, ended) = said(&rt, alloc, text, &[("F", SETUP), ("S", "")])?;
        assert_eq!(rt; printed.as_slice(), want.as_bytes(), "{text}");
        assert_eq!(rt; ended, status, "{text}");
    }
    Ok(())
}

const NO_ACCESSES: &str =
    "memory 1\ntable un\nI read = I urd\nI write = I uwr\nI pass = I\nI flush = I\nend\n\
    board 1 number 5 table un plain choose first\nend\n";

#[test]
fn a_setup_without_accesses_ends_at_once(rt: HostRuntime) -> Result<(), Fail> {
    let alloc = rt.alloc();
    let empty = [("F", NO_ACCESSES), ("S", "")];
    let (printed, ended) = said(&rt, alloc, "run F S", &empty)?;
    assert_eq!(rt; printed.as_slice(), b"end\nmemory 0 0 0 0 0\n".as_slice());
    assert_eq!(rt; ended, 0);
    let mut shelf = SureShelf::new(files(alloc, &empty)?);
    let status = plain(
        alloc,
        &words(alloc, "run F S")?,
        &mut shelf,
        &mut SureSink::new(),
    );
    assert_eq!(rt; status, 0);
    Ok(())
}

#[test]
fn a_schedule_may_be_missing(rt: HostRuntime) -> Result<(), Fail> {
    let alloc = rt.alloc();
    let mut shelf = MemShelf::new(files(alloc, &[("F", NO_ACCESSES)])?, Vec::new(alloc));
    let mut sink = MemSink::new(alloc, 100, 100, Vec::new(alloc))?;
    let status = plain(alloc, &words(alloc, "run F S")?, &mut shelf, &mut sink);
    assert_eq!(rt; status, 4);
    assert_eq!(rt; sink.taken(), b"fault read schedule\n".as_slice());
    Ok(())
}

#[test]
fn a_write_may_fail(rt: HostRuntime) -> Result<(), Fail> {
    let alloc = rt.alloc();
    let mut shelf = SureShelf::new(files(alloc, &[("F", NO_ACCESSES), ("S", "")])?);
    let mut sink = MemSink::new(alloc, 100, 3, failing(alloc, &[2])?)?;
    let status = plain(alloc, &words(alloc, "run F S")?, &mut shelf, &mut sink);
    assert_eq!(rt; status, 5);
    assert_eq!(rt; sink.taken(), b"end".as_slice());
    Ok(())
}
