//! One frame, taken and given back.

use super::*;
use std::test::*;

#[test]
fn one_frame_is_taken_once(rt: HostRuntime) -> Result<(), Fail> {
    let Ok(mut pool) = LinePool::new(rt.alloc(), 1) else {
        return Err("memory".into());
    };
    let frame = pool.take().ok_or("free")?;
    assert_eq!(rt; frame, FrameNo(0));
    assert!(rt; pool.take().is_none());
    pool.fill(frame, [1, 2, 3, 4]);
    pool.set_word(frame, 2, 9);
    assert_eq!(rt; pool.word(frame, 2), 9);
    assert_eq!(rt; pool.word(frame, 3), 4);
    assert_eq!(rt; pool.words(frame), [1, 2, 9, 4]);
    pool.give(frame);
    assert_eq!(rt; pool.take(), Some(FrameNo(0)));
    Ok(())
}
