//! The rows of `explain`, and what fails on the way.

use crate::plain;
use crate::tests::{SETUP, TRACE, failing, files, said, words};
use fb_edge::{MemShelf, MemSink, SureShelf};
use std::test::Fail;

/// The setup, an empty file, the trace, a setup with a fault, and a refused table.
const FILES: [(&str, &str); 5] = [
    ("F", SETUP),
    ("S", ""),
    ("T", TRACE),
    ("B", "memory 1\nboards\n"),
    (
        "R",
        "table un\nI read = I urd\nI write = I uwr\nI pass = I\nend\n",
    ),
];

#[test]
fn what_is_not_refused_has_no_fault(rt: HostRuntime) -> Result<(), Fail> {
    for text in [
        "explain check F",
        "explain show F",
        "explain run F S",
        "explain run F seed 1",
        "explain replay F T",
        "explain race F",
        "explain make 1",
        "explain tally 1",
        "explain help",
        "explain help run",
        "explain -h",
        "explain --version",
    ] {
        let (printed, ended) = said(&rt, rt.alloc(), text, &FILES)?;
        assert_eq!(rt; printed.as_slice(), b"no fault\n".as_slice(), "{text}");
        assert_eq!(rt; ended, 0, "{text}");
    }
    Ok(())
}

/// What the command prints comes first, with its status, and more after it.
#[test]
fn what_is_refused_is_explained(rt: HostRuntime) -> Result<(), Fail> {
    let alloc = rt.alloc();
    for (text, line, status) in [
        ("explain check B", "fault setup line 2 word\n", 3),
        (
            "explain check R",
            "table un: refused 1\nmissing I flush\n",
            1,
        ),
        ("explain show B", "fault setup line 2 word\n", 3),
        ("explain race B", "fault setup line 2 word\n", 3),
        ("explain run F F", "fault schedule line 1 number\n", 3),
        ("explain replay F S", "fault trace unfinished 1\n", 1),
        ("explain replay F F", "fault trace line 1 spelling\n", 1),
        ("explain", "fault words\n", 2),
        ("explain chek F", "fault words\n", 2),
        ("explain run F", "fault words\n", 2),
        ("explain make 01", "fault words\n", 2),
        ("explain explain check F", "fault words\n", 2),
    ] {
        let (printed, ended) = said(&rt, alloc, text, &FILES)?;
        assert!(rt; printed.starts_with(line.as_bytes()), "{text}");
        assert!(rt; printed.len() > line.len(), "{text}");
        assert_eq!(rt; ended, status, "{text}");
    }
    Ok(())
}

#[test]
fn a_file_that_is_not_read_is_named(rt: HostRuntime) -> Result<(), Fail> {
    let alloc = rt.alloc();
    let run = words(alloc, "explain run F X")?;
    let mut shelf = MemShelf::new(files(alloc, &FILES)?, Vec::new(alloc));
    let mut sink = MemSink::new(alloc, 500, 500, Vec::new(alloc))?;
    let status = plain(alloc, &run, &mut shelf, &mut sink);
    assert_eq!(rt; status, 4);
    assert!(rt;
        sink.taken()
            .starts_with(b"fault read schedule\nThe file X, ")
    );
    Ok(())
}

#[test]
fn an_explanation_may_not_be_written(rt: HostRuntime) -> Result<(), Fail> {
    let alloc = rt.alloc();
    let check = words(alloc, "explain check B")?;
    let mut shelf = SureShelf::new(files(alloc, &FILES)?);
    let mut sink = MemSink::new(alloc, 100, 5, failing(alloc, &[2])?)?;
    let status = plain(alloc, &check, &mut shelf, &mut sink);
    assert_eq!(rt; status, 5);
    assert_eq!(rt; sink.taken(), b"fault".as_slice());
    Ok(())
}
