//! The texts, and what is in them.

use crate::{help_text, page_named, version_text};
use std::test::Fail;

#[test]
fn each_command_has_a_line_and_a_page(rt: HostRuntime) -> Result<(), Fail> {
    for name in [
        "check", "show", "run", "replay", "race", "make", "tally", "explain", "help", "version",
    ] {
        let Some(page) = page_named(name) else {
            return Err(Fail::from("no page"));
        };
        assert!(rt; page.starts_with(name), "{name}");
        let Some(line) = page.lines().next() else {
            return Err(Fail::from("no line"));
        };
        assert!(rt; help_text().lines().any(|other| other == line), "{name}");
    }
    assert!(rt; page_named("checks").is_none());
    assert!(rt; version_text().starts_with("futurebus "));
    Ok(())
}
