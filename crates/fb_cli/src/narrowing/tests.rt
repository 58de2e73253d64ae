//! The rows of `narrow`.

use crate::tests::said;
use std::test::Fail;

#[test]
fn tables_are_narrowed(rt: HostRuntime) -> Result<(), Fail> {
    let rows = [
        (
            "table x\nI read = CH:S/E rd | I urd\nI write = I uwr\nI pass = I\nI flush = I\nend\n",
            "table x\nI read = I urd\nI write = I uwr\nI pass = I\nI flush = I\nend\n",
            0,
        ),
        ("table x\nI read = I\nend\n", "narrow x: none\n", 9),
        (
            "table x\nend\ntable y\nend\n",
            "fault setup line 3 word\n",
            3,
        ),
        ("memory 1\n", "fault setup line 1 word\n", 3),
    ];
    for (text, wanted, status) in rows {
        let (printed, ended) = said(&rt, rt.alloc(), "narrow F", &[("F", text)])?;
        assert_eq!(rt; printed.as_slice(), wanted.as_bytes(), "{text}");
        assert_eq!(rt; ended, status, "{text}");
    }
    Ok(())
}
