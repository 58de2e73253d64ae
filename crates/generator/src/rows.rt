//! Rows of tables, and tables that are made of them.

ghost use Rattle.std.specs.Prelude.{◌≡◌, true, ◌∷◌, [], OnOk};
ghost use Rattle.class_relation.specs.Tables.{empty_table};
ghost use Rattle.class_relation.specs.Names.{is_name};
ghost use Rattle.generator.specs.Tables.{with_local_rows, with_answer_rows, local_rows_fit, answer_rows_fit};

use bus_signals::{BusEvent, LocalEvent, Response};
use class_relation::{LocalAction, PushFault, SnoopAction, Table};
use moesi_state::{Outcome, State};
use no_memory::NoMemory;

/// An alternative of a local event: the state, the event, the outcome, and the transaction that it
/// needs.
#[derive(Clone, Copy)]
pub struct LocalRow(pub State, pub LocalEvent, pub Outcome, pub Option<BusEvent>);

/// An alternative of a bus event: the state, the event, the state after it, and the signals
/// asserted.
#[derive(Clone, Copy)]
pub struct AnswerRow(pub State, pub BusEvent, pub State, pub Response);

fn add_local(table: &mut Table, row: LocalRow) -> Result<(), NoMemory>
    requires { local_rows_fit table.old (row ∷ []) ≡ true }
    ensures { OnOk result (table.new ≡ with_local_rows table.old (row ∷ [])) }
{
    let action = LocalAction {
        result: row.2,
        bus: row.3,
    };
    match table.push_local(row.0, row.1, action) {
        Ok(()) => Ok(()),
        Err(PushFault::NoMemory) => Err(NoMemory),
        Err(PushFault::Full) => unreachable!(),
    }
}

fn add_answer(table: &mut Table, row: AnswerRow) -> Result<(), NoMemory>
    requires { answer_rows_fit table.old (row ∷ []) ≡ true }
    ensures { OnOk result (table.new ≡ with_answer_rows table.old (row ∷ [])) }
{
    let action = SnoopAction {
        result: row.2,
        response: row.3,
    };
    match table.push_snoop(row.0, row.1, action) {
        Ok(()) => Ok(()),
        Err(PushFault::NoMemory) => Err(NoMemory),
        Err(PushFault::Full) => unreachable!(),
    }
}

/// Adds the alternatives of local events, in their order. Each has room in its cell.
pub fn add_locals(table: &mut Table, rows: &[LocalRow]) -> Result<(), NoMemory>
    requires { local_rows_fit table.old rows.now ≡ true }
    ensures { OnOk result (table.new ≡ with_local_rows table.old rows.now) }
{
    for row in rows {
        add_local(table, *row)?;
    }
    Ok(())
}

/// Adds the alternatives of bus events, in their order. Each has room in its cell.
pub fn add_answers(table: &mut Table, rows: &[AnswerRow]) -> Result<(), NoMemory>
    requires { answer_rows_fit table.old rows.now ≡ true }
    ensures { OnOk result (table.new ≡ with_answer_rows table.old rows.now) }
{
    for row in rows {
        add_answer(table, *row)?;
    }
    Ok(())
}
