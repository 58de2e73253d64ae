//! The rows of `show`.

use crate::plain;
use crate::tests::{SETUP, said, words};
use fb_edge::{MemSink, SureShelf};
use std::test::Fail;

#[test]
fn a_setup_is_shown(rt: HostRuntime) -> Result<(), Fail> {
    let (printed, ended) = said(&rt, rt.alloc(), "show F", &[("F", SETUP)])?;
    assert_eq!(rt; printed.as_slice(), SETUP.as_bytes());
    assert_eq!(rt; ended, 0);
    Ok(())
}

#[test]
fn a_long_setup_is_refused(rt: HostRuntime) -> Result<(), Fail> {
    let alloc = rt.alloc();
    let mut one = Vec::new(alloc);
    one.push((
        String::from_str(alloc, "F")?,
        vec![in alloc; b'#'; 8_388_609]?,
    ))?;
    let mut shelf = SureShelf::new(one);
    let mut sink = MemSink::new(alloc, 100, 100, Vec::new(alloc))?;
    let status = plain(alloc, &words(alloc, "show F")?, &mut shelf, &mut sink);
    assert_eq!(rt; status, 7);
    assert_eq!(rt; sink.taken(), b"fault long setup 8388609\n".as_slice());
    Ok(())
}
