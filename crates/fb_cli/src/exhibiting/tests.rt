//! The rows of `exhibit`.

use crate::tests::said;
use std::test::Fail;

#[test]
fn each_exhibit_ends_with_its_harm(rt: HostRuntime) -> Result<(), Fail> {
    for (words, last) in [
        ("exhibit 1", "\nunsound 8 shared 0\n"),
        ("exhibit 2", "\nunsound 8 shared 0\n"),
        ("exhibit 3", "\nunsound 8 shared 0\n"),
        ("exhibit 4", "\nunsound 8 shared 0\n"),
        ("exhibit 5", "\nunsound 8 reply 0\n"),
        ("exhibit 6", "\nunsound 8 words 0\n"),
        ("exhibit 7", "\nunsound 5 memory 0\n"),
        ("exhibit 8", "\nunsound 12 owners 0\n"),
        ("exhibit 9", "\nunsound 8 reply 0\n"),
        ("exhibit 10", "\nunsound 12 shared 0\n"),
        ("exhibit 11", "\nunsound 8 words 0\n"),
        ("exhibit 12", "\nunsound 9 shared 0\n"),
    ] {
        let (printed, ended) = said(&rt, rt.alloc(), words, &[])?;
        assert!(rt; printed.ends_with(last.as_bytes()), "{words}");
        assert_eq!(rt; ended, 9, "{words}");
    }
    Ok(())
}

#[test]
fn other_numbers_are_refused(rt: HostRuntime) -> Result<(), Fail> {
    for words in [
        "exhibit 0",
        "exhibit 13",
        "exhibit 01",
        "exhibit x",
        "exhibit",
    ] {
        let (printed, ended) = said(&rt, rt.alloc(), words, &[])?;
        assert_eq!(rt; printed.as_slice(), b"fault words\n".as_slice(), "{words}");
        assert_eq!(rt; ended, 2, "{words}");
    }
    Ok(())
}
