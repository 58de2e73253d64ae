//! The rows of `traffic`.

use crate::tests::{SETUP, said};
use std::test::Fail;

const LINES: &str =
    "traffic 1 connects 2 words 2 local 0 served 0 took 0\ntraffic memory served 1 took 1\n";

#[test]
fn a_run_is_counted(rt: HostRuntime) -> Result<(), Fail> {
    for words in ["traffic F S", "traffic F seed 1"] {
        let (printed, ended) = said(&rt, rt.alloc(), words, &[("F", SETUP), ("S", "")])?;
        assert_eq!(rt; printed.as_slice(), LINES.as_bytes(), "{words}");
        assert_eq!(rt; ended, 0, "{words}");
    }
    Ok(())
}

#[test]
fn what_run_refuses_is_refused(rt: HostRuntime) -> Result<(), Fail> {
    let (printed, ended) = said(&rt, rt.alloc(), "traffic F S", &[("F", SETUP), ("S", "2")])?;
    assert_eq!(rt;
        printed.as_slice(),
        b"fault schedule line 1 number\n".as_slice()
    );
    assert_eq!(rt; ended, 3);
    Ok(())
}
