//! The events of an audit are spelled: each has a line.
//!
//! A line has a board from 1 to 16, a line of memory from 0 to 4,095, a word of 32 bits, and so on.
//! Tables may do harm, but no table makes a board, a line or a list that cannot be spelled, so
//! nothing has to be checked when an audit is printed.

ghost use Rattle.audit_text.specs.AuditLines.{AuditsAreSpelled};

/// Each event of an audit is spelled.
pub fn audits_are_spelled()
    ensures { AuditsAreSpelled }
{}
