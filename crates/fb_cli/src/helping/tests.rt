//! The rows of `help` and of `version`.

use crate::plain;
use crate::tests::{failing, files, said, words};
use fb_edge::{MemSink, SureShelf};
use std::test::Fail;
use usage::{help_text, page_named, version_text};

#[test]
fn the_program_tells_of_itself(rt: HostRuntime) -> Result<(), Fail> {
    let Some(page) = page_named("run") else {
        return Err(Fail::from("no page"));
    };
    let rows = [
        ("help", help_text(), 0),
        ("-h", help_text(), 0),
        ("--help", help_text(), 0),
        ("help run", page, 0),
        ("version", version_text(), 0),
        ("--version", version_text(), 0),
        ("help runs", "fault words\n", 2),
        ("help run more", "fault words\n", 2),
        ("version 1", "fault words\n", 2),
    ];
    for (text, want, status) in rows {
        let (printed, ended) = said(&rt, rt.alloc(), text, &[])?;
        assert_eq!(rt; printed.as_slice(), want.as_bytes(), "{text}");
        assert_eq!(rt; ended, status, "{text}");
    }
    Ok(())
}

#[test]
fn help_may_not_be_written(rt: HostRuntime) -> Result<(), Fail> {
    let alloc = rt.alloc();
    let mut shelf = SureShelf::new(files(alloc, &[])?);
    let mut sink = MemSink::new(alloc, 100, 5, failing(alloc, &[2])?)?;
    let status = plain(alloc, &words(alloc, "help")?, &mut shelf, &mut sink);
    assert_eq!(rt; status, 5);
    assert_eq!(rt; sink.taken(), b"check".as_slice());
    Ok(())
}
