//! Words and lines of memory.

use super::*;
use bus_signals::{Addr, LineNo};
use std::test::*;

#[test]
fn words_stand_on_lines(rt: HostRuntime) -> Result<(), Fail> {
    let mut memory = MemoryBoard::new(vec![in rt.alloc(); 0, 1, 2, 3, 4, 5, 6, 7]?);
    assert_eq!(rt; memory.lines(), 2);
    memory.take_word(Addr(6), 60);
    assert_eq!(rt; memory.word(Addr(6)), 60);
    assert_eq!(rt; memory.line(LineNo(1)), [4, 5, 60, 7]);
    memory.take_line(LineNo(0), [9, 8, 7, 6]);
    assert_eq!(rt; memory.line(LineNo(0)), [9, 8, 7, 6]);
    assert_eq!(rt; memory.word(Addr(4)), 4);
    Ok(())
}
