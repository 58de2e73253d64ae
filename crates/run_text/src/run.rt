//! A run printed from its machine.

ghost use Rattle.std.specs.Prelude.{◌≡◌, ◌≤◌, ◌<◌, ◌+◌, ◌++◌, ◌∷◌, [], length, OnOk};
ghost use Rattle.std.specs.List.{AllByRecursion};
ghost use Rattle.trace_text.specs.Ranges.{InRange};
ghost use Rattle.bus_model.specs.Setup.{line_count, board_places};
ghost use Rattle.bus_model.specs.Entries.{entries};
ghost use Rattle.backplane.specs.Machine.{configuration, IsBoard};
ghost use Rattle.run_text.specs.RunLines.{IsTyped};
ghost use Rattle.run_text.specs.RunText.{board_replies, replies_text, memory_of, all_memory, copy_of, events_text, board_copies, all_copies, ending, run_text};
ghost use Rattle.run_text.specs.Printing.{Printed, Paged, IsReady};

use crate::lines::write_copy;
use crate::printer::{Printer, print_line};
use crate::spelling::runs_are_spelled;
use backplane::Machine;
use bus_signals::{BoardNo, LineNo};
use fb_edge::{PutFailed, Sink};
use fb_text::Text;
use journal::Event;

/// Prints the replies to the reads of a board.
fn print_board_replies<K: Sink>(
    machine: &Machine,
    board: BoardNo,
    printer: &mut Printer,
    sink: &mut K,
) -> Result<(), PutFailed>
    requires board { IsBoard machine.now board }
    ensures paged { Paged (K.faults sink.old) (K.faults sink.new) (K.taken sink.old)
        (K.taken sink.new) printer.old printer.new
        (board_replies (entries machine.now.journal) board) result }
{
    printer.replies(machine.replies(board), sink)
}

/// Prints the replies to the reads of the boards.
fn print_all_replies<K: Sink>(
    machine: &Machine,
    printer: &mut Printer,
    sink: &mut K,
) -> Result<(), PutFailed>
    ensures paged { Paged (K.faults sink.old) (K.faults sink.new) (K.taken sink.old)
        (K.taken sink.new) printer.old printer.new
        (replies_text (entries machine.now.journal) (board_places machine.now.setup)) result }
{
    for place in 0..machine.boards() {
        print_board_replies(machine, BoardNo(place + 1), printer, sink)?;
    }
    Ok(())
}

/// Prints a line of memory.
fn print_memory_line<K: Sink>(
    machine: &Machine,
    number: u32,
    printer: &mut Printer,
    sink: &mut K,
) -> Result<(), PutFailed>
    requires number { number < line_count machine.now.setup }
    ensures paged { Paged (K.faults sink.old) (K.faults sink.new) (K.taken sink.old)
        (K.taken sink.new) printer.old printer.new (memory_of (configuration machine.now) number)
        result }
{
    let words = machine.memory_line(LineNo(number));
    printer.memory(LineNo(number), words, sink)
}

/// Prints the memory.
fn print_memory<K: Sink>(
    machine: &Machine,
    printer: &mut Printer,
    sink: &mut K,
) -> Result<(), PutFailed>
    ensures paged { Paged (K.faults sink.old) (K.faults sink.new) (K.taken sink.old)
        (K.taken sink.new) printer.old printer.new
        (all_memory (configuration machine.now) (line_count machine.now.setup)) result }
{
    for number in 0..machine.lines() {
        print_memory_line(machine, number, printer, sink)?;
    }
    Ok(())
}

/// Prints the copy that a board has of a line, if it has one.
fn print_copy<K: Sink>(
    machine: &Machine,
    board: BoardNo,
    number: u32,
    printer: &mut Printer,
    sink: &mut K,
) -> Result<(), PutFailed>
    requires board { IsBoard machine.now board }
    ensures paged { Paged (K.faults sink.old) (K.faults sink.new) (K.taken sink.old)
        (K.taken sink.new) printer.old printer.new
        (copy_of (configuration machine.now) board number) result }
{
    if let Some(copy) = machine.copy(board, LineNo(number)) {
        let words = copy.1;
        write_copy(board, LineNo(number), copy.0, words, &mut printer.line);
    }
    print_line(&mut printer.line, &mut printer.page, sink)
}

/// Prints the copies of a board.
fn print_copies<K: Sink>(
    machine: &Machine,
    board: BoardNo,
    printer: &mut Printer,
    sink: &mut K,
) -> Result<(), PutFailed>
    requires board { IsBoard machine.now board }
    ensures paged { Paged (K.faults sink.old) (K.faults sink.new) (K.taken sink.old)
        (K.taken sink.new) printer.old printer.new
        (board_copies (configuration machine.now) (line_count machine.now.setup) board) result }
{
    for number in 0..machine.lines() {
        print_copy(machine, board, number, printer, sink)?;
    }
    Ok(())
}

/// Prints the copies of the boards.
fn print_all_copies<K: Sink>(
    machine: &Machine,
    printer: &mut Printer,
    sink: &mut K,
) -> Result<(), PutFailed>
    ensures paged { Paged (K.faults sink.old) (K.faults sink.new) (K.taken sink.old)
        (K.taken sink.new) printer.old printer.new
        (all_copies (configuration machine.now) (line_count machine.now.setup)
        (board_places machine.now.setup)) result }
{
    for place in 0..machine.boards() {
        print_copies(machine, BoardNo(place + 1), printer, sink)?;
    }
    Ok(())
}

/// Prints through a page how a run ended.
fn print_ending_through<K: Sink>(
    machine: &Machine,
    printer: &mut Printer,
    sink: &mut K,
) -> Result<(), PutFailed>
    ensures paged { Paged (K.faults sink.old) (K.faults sink.new) (K.taken sink.old)
        (K.taken sink.new) printer.old printer.new
        (ending machine.now.setup machine.now.journal (configuration machine.now)) result }
{
    print_all_replies(machine, printer, sink)?;
    print_memory(machine, printer, sink)?;
    print_all_copies(machine, printer, sink)
}

/// Prints how a run ended: the replies, the memory and the copies.
pub fn print_ending<K: Sink>(machine: &Machine, sink: &mut K, line: Text) -> Result<(), PutFailed>
    requires ready { IsReady line }
    ensures printed { Printed (K.faults sink.old) (K.faults sink.new) (K.taken sink.old)
        (K.taken sink.new)
        (ending machine.now.setup machine.now.journal (configuration machine.now)) result }
{
    let mut printer = Printer::new(line);
    print_ending_through(machine, &mut printer, sink)?;
    printer.finish(sink)
}

/// Prints the events of a machine.
fn print_journal<K: Sink>(
    machine: &Machine,
    printer: &mut Printer,
    sink: &mut K,
) -> Result<(), PutFailed>
    ensures paged { Paged (K.faults sink.old) (K.faults sink.new) (K.taken sink.old)
        (K.taken sink.new) printer.old printer.new (events_text machine.now.journal) result }
    ensures spelled { OnOk result (AllByRecursion InRange machine.now.journal) }
{
    runs_are_spelled();
    printer.events(machine.journal(), sink)
}

/// Prints the run of a machine through a page.
fn print_run_through<K: Sink>(
    machine: &Machine,
    printer: &mut Printer,
    sink: &mut K,
) -> Result<(), PutFailed>
    ensures paged { Paged (K.faults sink.old) (K.faults sink.new) (K.taken sink.old)
        (K.taken sink.new) printer.old printer.new
        (run_text machine.now.setup machine.now.journal (configuration machine.now)) result }
    // Each event has its line.
    ensures spelled { OnOk result (AllByRecursion InRange machine.now.journal) }
{
    print_journal(machine, printer, sink)?;
    printer.end(sink)?;
    print_ending_through(machine, printer, sink)
}

/// Prints the run of a machine: its events, `end`, and the ending.
pub fn print_run<K: Sink>(machine: &Machine, sink: &mut K, line: Text) -> Result<(), PutFailed>
    requires ready { IsReady line }
    ensures printed { Printed (K.faults sink.old) (K.faults sink.new) (K.taken sink.old)
        (K.taken sink.new)
        (run_text machine.now.setup machine.now.journal (configuration machine.now)) result }
    // Each event has its line.
    ensures spelled { OnOk result (AllByRecursion InRange machine.now.journal) }
{
    let mut printer = Printer::new(line);
    print_run_through(machine, &mut printer, sink)?;
    printer.finish(sink)
}

/// Prints events through a page, and after them a text.
fn print_events_through<K: Sink>(
    events: &[Event],
    last: &[u8],
    printer: &mut Printer,
    sink: &mut K,
) -> Result<(), PutFailed>
    requires spelled { AllByRecursion (λ event. IsTyped event → InRange event) events.now }
    ensures paged { Paged (K.faults sink.old) (K.faults sink.new) (K.taken sink.old)
        (K.taken sink.new) printer.old printer.new (events_text events.now ++ last.now) result }
{
    printer.events(events, sink)?;
    printer.text(last, sink)
}

/// Prints the lines of events, and after them a text.
pub fn print_events<K: Sink>(
    events: &[Event],
    last: &[u8],
    sink: &mut K,
    line: Text,
) -> Result<(), PutFailed>
    requires ready { IsReady line }
    requires spelled { AllByRecursion (λ event. IsTyped event → InRange event) events.now }
    ensures printed { Printed (K.faults sink.old) (K.faults sink.new) (K.taken sink.old)
        (K.taken sink.new) (events_text events.now ++ last.now) result }
{
    let mut printer = Printer::new(line);
    print_events_through(events, last, &mut printer, sink)?;
    printer.finish(sink)
}
