//! The frame of an evicted line is given to the line that replaces it.

use super::Rack;
use crate::tests::narrow_rack;
use bus_signals::{Addr, BoardNo, LineNo};
use line_pool::FrameNo;
use moesi_state::State;
use std::test::Fail;

// The calls to the rack in the run of a board with one frame that writes line 0 and then line 1.
#[test]
fn one_frame_is_out_after_an_eviction(rt: HostRuntime) -> Result<(), Fail> {
    let board = BoardNo(1);
    let mut rack = narrow_rack(rt.alloc())?;
    rack.put_line(board, LineNo(0), [1, 0, 0, 0], State::M);
    rack.set_state(board, LineNo(0), State::I);
    rack.put_line(board, LineNo(1), [0, 0, 0, 0], State::M);
    rack.put_word(board, Addr(4), 2);
    assert_eq!(rt; rack.words(board, LineNo(1)), Some([2, 0, 0, 0]));
    assert_eq!(rt; rack.words(board, LineNo(0)), None);
    assert_eq!(rt; rack.pool().words(FrameNo(0)), [2, 0, 0, 0]);
    let Rack { mut pool, .. } = rack;
    assert!(rt; pool.take().is_none());
    Ok(())
}
