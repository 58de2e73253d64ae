//! The lines of what the audits of exhibits found.

use crate::write_verdict;
use audit::{audit, exhibit};
use fb_text::Text;
use std::test::Fail;

#[test]
fn each_exhibit_has_its_line(rt: HostRuntime) -> Result<(), Fail> {
    let alloc = rt.alloc();
    let lines = [
        (5, "unsound 8 reply 0\n"),
        (6, "unsound 8 words 0\n"),
        (7, "unsound 5 memory 0\n"),
        (8, "unsound 12 owners 0\n"),
        (12, "unsound 9 shared 0\n"),
    ];
    for (number, line) in lines {
        let (setup, schedule) = exhibit(alloc, number)?;
        let audit = audit(alloc, setup, &schedule)?;
        let mut text = Text::new(alloc);
        text.reserve(64)?;
        write_verdict(&audit, &mut text);
        assert_eq!(rt; text.bytes(), line.as_bytes(), "{number}");
    }
    Ok(())
}
