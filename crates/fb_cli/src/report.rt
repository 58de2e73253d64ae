//! The report of the checker on tables.

ghost use Rattle.std.specs.Prelude.{◌≡◌, ◌<◌, ◌≤◌, ◌+◌, ◌++◌, ◌∷◌, [], length, flat_map, OnOk, IfOk, IfErr, Option, Some, true};
ghost use Rattle.std.specs.List.{list_all};
ghost use Rattle.fb_text.specs.Written.{after_words, line_bytes};
ghost use Rattle.table_check.specs.Accepted.{faults};
ghost use Rattle.fb_cli.specs.Report.{is_accepted, cell_name, alternative_of, fault_bytes, verdict_line, report_on, report};
ghost use Rattle.fb_cli.specs.Output.{Output, if_accepted};
ghost use Rattle.fb_cli.specs.Replies.{Gives};

use crate::answers::{Answer, Outcome, Refusal, Reply};
use crate::words::{number, word};
use class_relation::{Cell, Table};
use class_words::{bus_event_text, local_event_text, state_text};
use fb_text::Text;
use no_memory::NoMemory;
use setup::Setup;
use std::alloc::Global;
use table_check::{CellFault, check};
use table_text::{write_answer, write_local_action};

/// Room for any line of a report.
const LINE: usize = 80;

/// The state and the event of a cell.
fn write_cell(cell: Cell, text: &mut Text)
    requires { 8 ≤ text.old.spare }
    ensures bytes { text.new.bytes ≡ text.old.bytes ++ after_words (cell_name cell) }
    ensures spare { text.old.spare ≤ text.new.spare + 8 }
{
    match cell {
        Cell::Local(state, event) => {
            word(text, state_text(state));
            word(text, local_event_text(event));
        }
        Cell::Answer(state, event) => {
            word(text, state_text(state));
            word(text, bus_event_text(event));
        }
    }
}

/// The alternative of this number, counted from 1, of a cell.
fn write_alternative(table: &Table, cell: Cell, number: u8, text: &mut Text)
    requires { 11 ≤ text.old.spare }
    ensures bytes { text.new.bytes
        ≡ text.old.bytes ++ after_words (alternative_of table.now cell number) }
    ensures spare { text.old.spare ≤ text.new.spare + 11 }
{
    let place = usize::from(number).saturating_sub(1);
    match cell {
        Cell::Local(state, event) => {
            if let Some(action) = table.local(state, event).get(place) {
                write_local_action(*action, text);
            }
        }
        Cell::Answer(state, event) => {
            if let Some(action) = table.snoop(state, event).get(place) {
                write_answer(*action, text);
            }
        }
    }
}

/// The line of an alternative that is not permitted.
fn write_forbidden(table: &Table, cell: Cell, number_in_cell: u8, text: &mut Text)
    requires { 80 ≤ text.old.spare }
    ensures { text.new.bytes
        ≡ text.old.bytes ++ fault_bytes table.now (CellFault.NotPermitted cell number_in_cell) }
{
    text.push(b"not-permitted");
    write_cell(cell, text);
    text.push(b" ");
    number(text, u64::from(number_in_cell));
    write_alternative(table, cell, number_in_cell, text);
    text.push(b"\n");
}

/// The line of a missing cell.
fn write_missing(table: &Table, cell: Cell, text: &mut Text)
    requires { 80 ≤ text.old.spare }
    ensures { text.new.bytes ≡ text.old.bytes ++ fault_bytes table.now (CellFault.Missing cell) }
{
    text.push(b"missing");
    write_cell(cell, text);
    text.push(b"\n");
}

/// The lines of faults.
fn write_faults(table: &Table, faults: &[CellFault], text: &mut Text) -> Result<(), NoMemory>
    ensures { OnOk result
        (text.new.bytes ≡ text.old.bytes ++ flat_map (fault_bytes table.now) faults.now) }
{
    for fault in faults {
        text.reserve(LINE)?;
        match fault {
            CellFault::NotPermitted { cell, alternative } => {
                write_forbidden(table, *cell, *alternative, text);
            }
            CellFault::Missing { cell } => write_missing(table, *cell, text),
        }
    }
    Ok(())
}

/// The first line of the report on a table with these faults.
fn write_verdict(table: &Table, faults: &[CellFault], text: &mut Text) -> Result<(), NoMemory>
    ensures { OnOk result
        (text.new.bytes ≡ text.old.bytes ++ line_bytes (verdict_line table.now.name faults.now)) }
{
    text.reserve(LINE)?;
    let name = table.name();
    text.push(b"table ");
    text.push(name.bytes());
    text.push(b":");
    if faults.is_empty() {
        text.push(b" accepted\n");
        return Ok(());
    }
    text.push(b" refused ");
    number(text, faults.len() as u64);
    text.push(b"\n");
    Ok(())
}

/// Appends the report on a table. Whether it is in the class.
fn write_report(alloc: Global, table: &Table, text: &mut Text) -> Result<bool, NoMemory>
    ensures text { IfOk result
        (λ accepted. text.new.bytes ≡ text.old.bytes ++ report_on table.now) }
    ensures accepted { IfOk result (λ accepted. accepted ≡ is_accepted table.now) }
{
    let verdict = check(alloc, table)?;
    write_verdict(table, verdict.faults(), text)?;
    write_faults(table, verdict.faults(), text)?;
    Ok(verdict.faults().is_empty())
}

/// A report on tables.
#[derive(Drop)]
pub struct Report {
    /// Each of them is in the class.
    pub accepted: bool,
    pub text: Text,
}

/// The report on tables.
fn report_of(alloc: Global, tables: &[Table]) -> Result<Report, NoMemory>
    ensures text { IfOk result (λ r. r.text.bytes ≡ report tables.now) }
    ensures accepted { IfOk result (λ r. r.accepted ≡ list_all is_accepted tables.now) }
{
    let mut text = Text::new(alloc);
    let mut accepted = true;
    for table in tables {
        if !write_report(alloc, table, &mut text)? {
            accepted = false;
        }
    }
    Ok(Report { accepted, text })
}

/// The reply where a table is not in the class.
fn refusal(report: Report) -> Reply
    ensures { Gives (λ o. o ≡ record { status = 1; text = report.text.bytes }) (λ role. ⊥) result }
{
    Reply::Answered(Answer::Said {
        outcome: Outcome::Refused,
        text: report.text,
    })
}

/// The report on tables that are all in the class, and else the reply with which a command stops.
pub fn report_on(alloc: Global, tables: &[Table]) -> Result<Text, Reply>
    ensures report { IfOk result (λ text. text.bytes ≡ report tables.now) }
    ensures accepted { OnOk result (list_all is_accepted tables.now ≡ true) }
    ensures stops { IfErr result (Gives
        (λ o. (rest : Option Output) → if_accepted tables.now rest ≡ Some o) (λ role. ⊥)) }
{
    match report_of(alloc, tables) {
        Ok(report) if report.accepted => Ok(report.text),
        Ok(report) => Err(refusal(report)),
        Err(NoMemory) => Err(Reply::Refused(Refusal::NoMemory)),
    }
}

/// Goes on where each table of a setup is in the class, and else stops with the report.
pub fn judge(alloc: Global, setup: &Setup) -> Result<(), Reply>
    ensures accepted { OnOk result (list_all is_accepted setup.now.tables ≡ true) }
    ensures stops { IfErr result (Gives
        (λ o. (rest : Option Output) → if_accepted setup.now.tables rest ≡ Some o) (λ role. ⊥)) }
{
    match report_on(alloc, setup.tables()) {
        Ok(_) => Ok(()),
        Err(reply) => Err(reply),
    }
}
