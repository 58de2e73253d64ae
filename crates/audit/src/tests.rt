//! The audits of two exhibits, whose events and findings are known.

use super::*;
use bus_signals::{Access, Addr, LineNo};
use journal::{Done, Event};
use std::test::Fail;

/// The access that the last event of an audit completes.
fn last_done(audit: &Audit) -> Option<Done> {
    match audit.journal().last() {
        Some(Event::DataPhase(carried)) => carried.done,
        _ => None,
    }
}

#[test]
fn memory_serves_a_reader_where_the_owner_does_not(rt: HostRuntime) -> Result<(), Fail> {
    let alloc = rt.alloc();
    let (setup, schedule) = exhibit(alloc, 5)?;
    let audit = audit(alloc, setup, schedule.as_slice())?;
    let done = Done {
        access: Access::Read(Addr(0)),
        reply: Some(0),
    };
    assert!(rt; last_done(&audit) == Some(done));
    let finding = Finding {
        event: 8,
        harm: Harm::Reply,
        line: LineNo(0),
    };
    assert_eq!(rt; audit.finding(), Some(finding));
    Ok(())
}

#[test]
fn two_boards_own_a_line(rt: HostRuntime) -> Result<(), Fail> {
    let alloc = rt.alloc();
    let (setup, schedule) = exhibit(alloc, 8)?;
    let audit = audit(alloc, setup, schedule.as_slice())?;
    assert_eq!(rt; audit.journal().len(), 12);
    let finding = Finding {
        event: 12,
        harm: Harm::Owners,
        line: LineNo(0),
    };
    assert_eq!(rt; audit.finding(), Some(finding));
    Ok(())
}
