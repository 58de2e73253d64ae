//! The rows of `library`.

use crate::tests::said;
use std::test::Fail;

const UNCACHED: &str = "table un\nI read = I urd\nI write = I uwr\nI pass = I\nI flush = I\nend\n";

#[test]
fn a_known_table_is_printed(rt: HostRuntime) -> Result<(), Fail> {
    let (printed, ended) = said(&rt, rt.alloc(), "library un", &[])?;
    assert_eq!(rt; printed.as_slice(), UNCACHED.as_bytes());
    assert_eq!(rt; ended, 0);
    Ok(())
}

#[test]
fn an_unknown_name_is_refused(rt: HostRuntime) -> Result<(), Fail> {
    let (printed, ended) = said(&rt, rt.alloc(), "library class", &[])?;
    assert_eq!(rt; printed.as_slice(), b"fault words\n".as_slice());
    assert_eq!(rt; ended, 2);
    Ok(())
}
