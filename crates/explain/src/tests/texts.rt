//! Setups, texts of tables and schedules that are refused.

use crate::*;
use fb_text::Text;
use std::test::Fail;

#[test]
fn setups_are_explained(rt: HostRuntime) -> Result<(), Fail> {
    let mut text = Text::new(rt.alloc());
    explain_setup(rt.alloc(), b"memory 1\n\tword\t4\n", &mut text)?;
    assert_eq!(rt;
        text.bytes(),
        b"2 | \tword\t4\n  | \t    \t^\n4 is out of range.\n\
          Expected an address of this memory, a number from 0 to 3.\n"
            .as_slice()
    );
    Ok(())
}

#[test]
fn tables_are_explained(rt: HostRuntime) -> Result<(), Fail> {
    let rows = [
        (
            "table x\nM read M\n",
            "2 | M read M\n  |        ^\nM cannot stand here. Expected one word: =.\n",
        ),
        (
            "table x\nI read = I urd\nI write = I uwr\nI pass = I\nend\n",
            "table x:\nI flush has no line. Permitted in this cell: I.\n",
        ),
    ];
    for (tables, want) in rows {
        let mut text = Text::new(rt.alloc());
        explain_tables(rt.alloc(), tables.as_bytes(), &mut text)?;
        assert_eq!(rt; text.bytes(), want.as_bytes(), "{tables}");
    }
    Ok(())
}

#[test]
fn schedules_are_explained(rt: HostRuntime) -> Result<(), Fail> {
    let rows = [
        ("3\n", ""),
        (
            "01\n",
            "1 | 01\n  | ^^\n01 has a leading zero; write it without.\n\
             Expected a board, whose turn it is, a number from 1 to 3.\n",
        ),
    ];
    for (schedule, want) in rows {
        let mut text = Text::new(rt.alloc());
        explain_schedule(rt.alloc(), schedule.as_bytes(), 3, &mut text)?;
        assert_eq!(rt; text.bytes(), want.as_bytes(), "{schedule}");
    }
    Ok(())
}
