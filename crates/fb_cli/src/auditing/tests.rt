//! The rows of `audit`.

use crate::tests::{SETUP, said};
use std::test::Fail;

/// A board without cells goes over the bus.
const NO_CELLS: &str =
    "memory 1\ntable none\nend\nboard 1 number 5 table none plain choose first\nwrite 2 7\nend\n";

/// A board that writes without the bus, and gives a line up without telling memory.
const SILENT: &str = "memory 2\ntable silent\nI write = M\nM read = M\nend\n\
    board 1 number 2 table silent cached 1 1 choose first\nwrite 0 5\nwrite 4 6\nend\n";

#[test]
fn what_does_no_harm_is_sound(rt: HostRuntime) -> Result<(), Fail> {
    for words in ["audit F S", "audit F seed 1"] {
        for (setup, last) in [(SETUP, "\nsound 8\n"), (NO_CELLS, "\nsound 4\n")] {
            let (printed, ended) = said(&rt, rt.alloc(), words, &[("F", setup), ("S", "")])?;
            assert!(rt; printed.ends_with(last.as_bytes()), "{words}");
            assert_eq!(rt; ended, 0, "{words}");
        }
    }
    Ok(())
}

#[test]
fn the_first_harm_is_told(rt: HostRuntime) -> Result<(), Fail> {
    let lines =
        "local 1 I to M done write 0 5\nlocal 1 I to M done write 4 6\nunsound 2 memory 0\n";
    for words in ["audit F S", "audit F seed 1"] {
        let (printed, ended) = said(&rt, rt.alloc(), words, &[("F", SILENT), ("S", "1")])?;
        assert_eq!(rt; printed.as_slice(), lines.as_bytes(), "{words}");
        assert_eq!(rt; ended, 9, "{words}");
    }
    Ok(())
}

#[test]
fn a_schedule_with_a_word_is_refused(rt: HostRuntime) -> Result<(), Fail> {
    let (printed, ended) = said(&rt, rt.alloc(), "audit F S", &[("F", SILENT), ("S", "2")])?;
    assert_eq!(rt;
        printed.as_slice(),
        b"fault schedule line 1 number\n".as_slice()
    );
    assert_eq!(rt; ended, 3);
    Ok(())
}
