//! The rows of `race`.

use crate::plain;
use crate::tests::{ENDING, SETUP, TRACE, files, said, words};
use fb_edge::{MemSink, SureShelf};
use std::test::Fail;

#[test]
fn a_race_is_printed_as_a_run(rt: HostRuntime) -> Result<(), Fail> {
    let alloc = rt.alloc();
    let mut whole = String::from_str(alloc, TRACE)?;
    whole.push_str(ENDING)?;
    let (printed, ended) = said(&rt, alloc, "race F", &[("F", SETUP)])?;
    assert_eq!(rt; printed.as_slice(), whole.as_bytes());
    assert_eq!(rt; ended, 0);
    Ok(())
}

#[test]
fn plain_knows_no_race(rt: HostRuntime) -> Result<(), Fail> {
    let alloc = rt.alloc();
    let mut shelf = SureShelf::new(files(alloc, &[("F", SETUP)])?);
    let mut sink = MemSink::new(alloc, 100, 100, Vec::new(alloc))?;
    let status = plain(alloc, &words(alloc, "race F")?, &mut shelf, &mut sink);
    assert_eq!(rt; status, 2);
    assert_eq!(rt; sink.taken(), b"fault words\n".as_slice());
    Ok(())
}
