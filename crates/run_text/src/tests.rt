//! How lines wait in a page.

use crate::page::Page;
use fb_edge::MemSink;
use std::test::Fail;

/// A page of 4,096 bytes has room for 40 lines of 100 bytes. The sink fails at its second call.
#[test]
fn lines_wait_for_a_full_page(rt: HostRuntime) -> Result<(), Fail> {
    let alloc = rt.alloc();
    let mut sink = MemSink::new(alloc, 10_000, 10_000, vec![in alloc; 2]?)?;
    let mut page = Page::new();
    for _ in 0..40u32 {
        page.add([b'a'; 100].as_slice(), &mut sink)?;
    }
    assert_eq!(rt; sink.taken().len(), 0);
    page.add([b'b'; 100].as_slice(), &mut sink)?;
    assert_eq!(rt; sink.taken(), [b'a'; 4_000].as_slice());
    assert!(rt; page.flush(&mut sink).is_err());
    assert_eq!(rt; sink.taken(), [b'a'; 4_000].as_slice());
    Ok(())
}

#[test]
fn a_line_longer_than_a_page_is_written(rt: HostRuntime) -> Result<(), Fail> {
    let alloc = rt.alloc();
    let mut sink = MemSink::new(alloc, 10_000, 10_000, Vec::new(alloc))?;
    let mut page = Page::new();
    page.add(b"a".as_slice(), &mut sink)?;
    page.add([b'b'; 4_097].as_slice(), &mut sink)?;
    page.add(b"c".as_slice(), &mut sink)?;
    assert_eq!(rt; sink.taken().len(), 4_098);
    page.flush(&mut sink)?;
    assert_eq!(rt; sink.taken().len(), 4_099);
    Ok(())
}
