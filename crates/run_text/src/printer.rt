//! A printer: lines are spelled one by one, and wait in a page for the sink.

ghost use Rattle.std.specs.Prelude.{◌≡◌, ◌≤◌, ◌+◌, ◌++◌, ◌∷◌, [], length, codes, OnOk};
ghost use Rattle.std.specs.List.{flat_map, AllByRecursion};
ghost use Rattle.fb_text.specs.Written.{line_bytes};
ghost use Rattle.trace_text.specs.Ranges.{InRange};
ghost use Rattle.trace_text.specs.Spelling.{line_of_event};
ghost use Rattle.run_text.specs.RunLines.{IsTyped};
ghost use Rattle.run_text.specs.Lines.{entry_line, memory_text};
ghost use Rattle.run_text.specs.RunText.{events_text};
ghost use Rattle.run_text.specs.Printing.{Printed, Paged, IsReady};

use crate::lines::{write_memory, write_reply};
use crate::page::Page;
use crate::spelling::is_typed;
use bus_signals::LineNo;
use fb_edge::{PutFailed, Sink};
use fb_text::Text;
use flat_memory::Entry;
use journal::Event;
use std::marker::Model;
use trace_text::write_event;

/// A page of lines that wait, and the room in which the next line is spelled.
#[derive(Drop)]
pub(crate) struct Printer {
    pub(crate) page: Page,
    pub(crate) line: Text,
}

impl Model for Printer {
    ghost use Rattle.std.specs.Prelude.{ℕ, List};
    ghost use Rattle.run_text.specs.Printing.{IsReady};

    ghost Value = { List ℕ };

    ghost view = { λ p. p.page };

    ghost invariant = { λ p. IsReady p.line };
}

/// Prints a line and empties it.
pub(crate) fn print_line<K: Sink>(
    line: &mut Text,
    page: &mut Page,
    sink: &mut K,
) -> Result<(), PutFailed>
    ensures paged { Paged (K.faults sink.old) (K.faults sink.new) (K.taken sink.old)
        (K.taken sink.new) page.old page.new line.old.bytes result }
    ensures empty { line.new.bytes ≡ [] }
    ensures room { line.new.spare ≡ line.old.spare + length line.old.bytes }
{
    let result = page.add(line.bytes(), sink);
    line.clear();
    result
}

impl Printer {
    /// A printer that spells its lines in this room.
    pub(crate) fn new(line: Text) -> Printer
        requires { IsReady line }
        ensures { result ≡ [] }
    {
        Printer {
            page: Page::new(),
            line,
        }
    }

    /// Writes the lines that wait.
    pub(crate) fn finish<K: Sink>(mut self, sink: &mut K) -> Result<(), PutFailed>
        ensures printed { Printed (K.faults sink.old) (K.faults sink.new) (K.taken sink.old)
            (K.taken sink.new) self result }
    {
        self.page.flush(sink)
    }

    /// Prints a text as it is.
    pub(crate) fn text<K: Sink>(&mut self, text: &[u8], sink: &mut K) -> Result<(), PutFailed>
        ensures paged { Paged (K.faults sink.old) (K.faults sink.new) (K.taken sink.old)
            (K.taken sink.new) self.old self.new text.now result }
    {
        self.page.add(text, sink)
    }

    /// Prints the line of an event.
    fn event<K: Sink>(&mut self, event: &Event, sink: &mut K) -> Result<(), PutFailed>
        requires spelled { IsTyped event.now → InRange event.now }
        ensures paged { Paged (K.faults sink.old) (K.faults sink.new) (K.taken sink.old)
            (K.taken sink.new) self.old self.new (line_of_event event.now) result }
        ensures in_range { InRange event.now }
    {
        is_typed(event);
        write_event(event, &mut self.line);
        print_line(&mut self.line, &mut self.page, sink)
    }

    /// Prints the lines of events.
    pub(crate) fn events<K: Sink>(
        &mut self,
        events: &[Event],
        sink: &mut K,
    ) -> Result<(), PutFailed>
        requires spelled { AllByRecursion (λ event. IsTyped event → InRange event) events.now }
        ensures paged { Paged (K.faults sink.old) (K.faults sink.new) (K.taken sink.old)
            (K.taken sink.new) self.old self.new (events_text events.now) result }
        // Each event has its line.
        ensures in_range { OnOk result (AllByRecursion InRange events.now) }
    {
        for event in events {
            self.event(event, sink)?;
        }
        Ok(())
    }

    /// Prints the line that comes after the events.
    pub(crate) fn end<K: Sink>(&mut self, sink: &mut K) -> Result<(), PutFailed>
        ensures paged { Paged (K.faults sink.old) (K.faults sink.new) (K.taken sink.old)
            (K.taken sink.new) self.old self.new (line_bytes (codes "end" ∷ [])) result }
    {
        self.line.push(b"end\n");
        print_line(&mut self.line, &mut self.page, sink)
    }

    /// Prints the line of the reply to a completed access, where it is a read.
    fn reply<K: Sink>(&mut self, entry: &Entry, sink: &mut K) -> Result<(), PutFailed>
        ensures paged { Paged (K.faults sink.old) (K.faults sink.new) (K.taken sink.old)
            (K.taken sink.new) self.old self.new (entry_line entry.now) result }
    {
        write_reply(entry, &mut self.line);
        print_line(&mut self.line, &mut self.page, sink)
    }

    /// Prints the lines of the replies to completed accesses.
    pub(crate) fn replies<K: Sink>(
        &mut self,
        entries: &[Entry],
        sink: &mut K,
    ) -> Result<(), PutFailed>
        ensures paged { Paged (K.faults sink.old) (K.faults sink.new) (K.taken sink.old)
            (K.taken sink.new) self.old self.new (flat_map entry_line entries.now) result }
    {
        for entry in entries {
            self.reply(entry, sink)?;
        }
        Ok(())
    }

    /// Prints a line of memory.
    pub(crate) fn memory<K: Sink>(
        &mut self,
        line: LineNo,
        words: [u32; 4],
        sink: &mut K,
    ) -> Result<(), PutFailed>
        ensures paged { Paged (K.faults sink.old) (K.faults sink.new) (K.taken sink.old)
            (K.taken sink.new) self.old self.new (memory_text line words) result }
    {
        write_memory(line, words, &mut self.line);
        print_line(&mut self.line, &mut self.page, sink)
    }
}
