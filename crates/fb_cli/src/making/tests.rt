//! The rows of `make`.

use crate::tests::words;
use crate::{make_setup, plain};
use fb_edge::{SureShelf, SureSink};
use std::test::Fail;

#[test]
fn setups_are_generated(rt: HostRuntime) -> Result<(), Fail> {
    let alloc = rt.alloc();
    let setup = make_setup(alloc, 7)?;
    assert_eq!(rt; setup.accesses(), 100_000);
    let mut shelf = SureShelf::new(Vec::new(alloc));
    let status = plain(
        alloc,
        &words(alloc, "make 7")?,
        &mut shelf,
        &mut SureSink::new(),
    );
    assert_eq!(rt; status, 0);
    Ok(())
}
