//! Traces that are refused, of one board without a cache.

use crate::*;
use fb_text::Text;
use std::test::Fail;

const SETUP: &[u8] =
    b"memory 1\ntable x\nI read = I urd\nI write = I uwr\nI pass = I\nI flush = I\nend\n\
      board 1 number 5 table x plain choose first\nread 0\nend\n";

#[test]
fn traces_are_explained(rt: HostRuntime) -> Result<(), Fail> {
    let rows = [
        (
            "",
            "The trace ends after 0 events. \
             Board 1 has done 0 accesses of 1; its next is read 0.\n",
        ),
        (
            "raise 1\nraise 1\n",
            "2 | raise 1\n  |       ^\nBoard 1 has raised its request already.\n",
        ),
    ];
    for (trace, want) in rows {
        let mut text = Text::new(rt.alloc());
        explain_trace(rt.alloc(), SETUP, trace.as_bytes(), &mut text)?;
        assert_eq!(rt; text.bytes(), want.as_bytes(), "{trace}");
    }
    Ok(())
}
