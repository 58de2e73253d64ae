//! What is wrong after an event, looked for on the lines that it touched.

ghost use Rattle.std.specs.Prelude.{◌≡◌, ◌+◌, ◌*◌, ◌^◌, ◌<◌, ◌≤◌, ◌∷◌, [], ◌||◌, not, ℕ, List, if◌then◌else◌, length, slice_index};
ghost use Rattle.flat_memory.specs.Flats.{IsLatest};
ghost use Rattle.bus_model.specs.Configuration.{is_of_line, rows_of_line};
ghost use Rattle.bus_model.specs.Entries.{Entry, entries_with, with_entry};
ghost use Rattle.audit.specs.Parts.{shown, DoneWithin};
ghost use Rattle.audit.specs.Harms.{same_words, line_harm, harm_at, or_later, done_in, reply_harm, first_of_harms};
ghost use Rattle.audit.specs.Touched.{in_order, harm_within, lowest_touched, touched};
ghost use Rattle.audit.specs.Seen.{unseen, with_seen, seen_after};

use crate::copies::Held;
use crate::finding::Harm;
use crate::parts::{Parts, line_of};
use crate::room::displaced;
use bus_signals::{Access, Addr, BoardNo, LineNo};
use flat_memory::Flat;
use journal::{Done, Event};
use setup::Setup;

/// The lines that an event touches, the lower first.
#[derive(Clone, Copy, Debug, PartialEq, Eq)]
pub enum Touched {
    NoLine,
    One(LineNo),
    Two(LineNo, LineNo),
}

/// What was seen of the rows of a line: how many own it, whether one is to be alone, how many there
/// are, and whether one has other words than the latest.
#[derive(Clone, Copy)]
struct Seen {
    owners: usize,
    alone: bool,
    copies: usize,
    stale: bool,
}

/// Two lines, the lower first.
fn in_order(a: LineNo, b: LineNo) -> Touched
    ensures { result ≡ in_order a b }
{
    if a.0 <= b.0 {
        Touched::Two(a, b)
    } else {
        Touched::Two(b, a)
    }
}

/// The lines that an event is going to touch.
pub fn touched_by(setup: &Setup, parts: &Parts, event: &Event) -> Touched
    ensures { result ≡ touched setup.now (shown parts.now) event.now }
{
    match event {
        Event::Local {
            board,
            after,
            done,
            ..
        } => {
            let line = done.access.addr().line();
            match displaced(setup, &parts.rows, *board, line, *after) {
                None => Touched::One(line),
                Some(victim) => in_order(line, victim.0),
            }
        }
        Event::Drop { line, .. } => Touched::One(*line),
        Event::Raise { .. } | Event::Grant { .. } | Event::Connect(_) => Touched::NoLine,
        Event::DataPhase(carried) => Touched::One(carried.line),
    }
}

fn either(a: bool, b: bool) -> bool
    ensures { result ≡ (a || b) }
{
    a || b
}

/// Whether words are not the latest.
fn differ(words: [u32; 4], latest: [u32; 4]) -> bool
    ensures { result ≡ not (same_words words latest) }
{
    words != latest
}

/// What was seen, with one more row.
fn with_row(seen: Seen, row: &Held, latest: [u32; 4]) -> Seen
    requires owners { seen.owners < 2 ^ 63 }
    requires copies { seen.copies < 2 ^ 63 }
    ensures { result ≡ with_seen latest seen row.now }
{
    Seen {
        owners: seen.owners + usize::from(row.state.owns()),
        alone: either(seen.alone, row.state.alone()),
        copies: seen.copies + 1,
        stale: either(seen.stale, differ(row.words, latest)),
    }
}

/// What was seen, with one more row if it is of the line.
fn with_row_of_line(seen: Seen, row: &Held, line: LineNo, latest: [u32; 4]) -> Seen
    requires owners { seen.owners < 2 ^ 63 }
    requires copies { seen.copies < 2 ^ 63 }
    ensures seen { result
        ≡ (if is_of_line line row.now then with_seen latest seen row.now else seen) }
    ensures owners { result.owners ≤ seen.owners + 1 }
    ensures copies { result.copies ≤ seen.copies + 1 }
{
    if row.line.0 == line.0 {
        with_row(seen, row, latest)
    } else {
        seen
    }
}

/// What is seen of the rows of a line.
fn see(rows: &[Held], line: LineNo, latest: [u32; 4]) -> Seen
    ensures { result ≡ seen_after line latest unseen rows.now }
{
    let mut seen = Seen {
        owners: 0,
        alone: false,
        copies: 0,
        stale: false,
    };
    for row in rows {
        seen = with_row_of_line(seen, row, line, latest);
    }
    seen
}

/// What is wrong with a line of these rows and these words of memory.
fn line_harm(rows: &[Held], line: LineNo, memory: [u32; 4], latest: [u32; 4]) -> Option<Harm>
    ensures { result ≡ line_harm (rows_of_line rows.now line) memory latest }
{
    let seen = see(rows, line, latest);
    if seen.owners > 1 {
        return Some(Harm::Owners);
    }
    if seen.alone && seen.copies > 1 {
        return Some(Harm::Shared);
    }
    if seen.stale {
        return Some(Harm::Words);
    }
    if seen.owners == 0 && differ(memory, latest) {
        return Some(Harm::Memory);
    }
    None
}

/// The latest word at an address.
fn latest_word(flat: &mut Flat, address: u32) -> u32
    requires { address < length flat.old }
    ensures word { result ≡ slice_index flat.old address }
    ensures same { flat.new ≡ flat.old }
{
    match flat.apply(Access::Read(Addr(address))) {
        Some(word) => word,
        None => 0,
    }
}

/// The latest words of a line.
fn latest_line(flat: &mut Flat, line: LineNo) -> [u32; 4]
    requires within { 4 * line + 3 < length flat.old }
    requires low { line < 2 ^ 16 }
    ensures words { result
        ≡ slice_index flat.old (4 * line) ∷ slice_index flat.old (4 * line + 1)
        ∷ slice_index flat.old (4 * line + 2) ∷ slice_index flat.old (4 * line + 3) ∷ [] }
    ensures same { flat.new ≡ flat.old }
{
    let first = 4 * line.0;
    [
        latest_word(flat, first),
        latest_word(flat, first + 1),
        latest_word(flat, first + 2),
        latest_word(flat, first + 3),
    ]
}

/// What is wrong with a line of memory.
fn harm_at(parts: &Parts, flat: &mut Flat, line: LineNo) -> Option<Harm>
    requires lines { length flat.old ≡ 4 * length parts.now.memory.items }
    requires few { length parts.now.memory.items ≤ 4096 }
    ensures harm { (memory : List ℕ) (history : List Entry) → IsLatest flat.old memory history
        → result
        ≡ harm_within (harm_at memory history (shown parts.now))
        (length parts.now.memory.items) line }
    ensures same { flat.new ≡ flat.old }
{
    if parts.memory.len() <= line.0 as usize {
        return None;
    }
    let latest = latest_line(flat, line);
    line_harm(&parts.rows, line, line_of(&parts.memory, line), latest)
}

/// A harm on its line, or the later one.
fn or_later(
    harm: Option<Harm>,
    line: LineNo,
    later: Option<(Harm, LineNo)>,
) -> Option<(Harm, LineNo)>
    ensures { result ≡ or_later harm line later }
{
    match harm {
        Some(harm) => Some((harm, line)),
        None => later,
    }
}

/// The lowest of the touched lines with a harm.
fn touched_harm(parts: &Parts, flat: &mut Flat, touched: Touched) -> Option<(Harm, LineNo)>
    requires lines { length flat.old ≡ 4 * length parts.now.memory.items }
    requires few { length parts.now.memory.items ≤ 4096 }
    ensures harm { (memory : List ℕ) (history : List Entry) → IsLatest flat.old memory history
        → result
        ≡ lowest_touched (harm_within (harm_at memory history (shown parts.now))
        (length parts.now.memory.items)) touched }
    ensures same { flat.new ≡ flat.old }
{
    match touched {
        Touched::NoLine => None,
        Touched::One(line) => or_later(harm_at(parts, flat, line), line, None),
        Touched::Two(a, b) => {
            let second = or_later(harm_at(parts, flat, b), b, None);
            or_later(harm_at(parts, flat, a), a, second)
        }
    }
}

/// The access that an event completes.
fn done_in(event: &Event) -> Option<Done>
    ensures { result ≡ done_in event.now }
{
    match event {
        Event::Local { done, .. } => Some(*done),
        Event::DataPhase(carried) => carried.done,
        Event::Drop { .. } | Event::Raise { .. } | Event::Grant { .. } | Event::Connect(_) => None,
    }
}

/// A reply that is not the one that is owed is a harm. The access is then done in the flat memory.
fn reply_harm(flat: &mut Flat, done: &Option<Done>) -> Option<(Harm, LineNo)>
    requires { DoneWithin (length flat.old) done.now }
    ensures harm { (memory : List ℕ) (history : List Entry) → IsLatest flat.old memory history
        → result ≡ reply_harm memory history done.now }
    ensures latest { (memory : List ℕ) (history : List Entry) (board : ℕ)
        → IsLatest flat.old memory history
        → IsLatest flat.new memory (with_entry history board done.now) }
    ensures long { length flat.new ≡ length flat.old }
{
    match done {
        None => None,
        Some(done) => {
            if flat.apply(done.access) == done.reply {
                None
            } else {
                Some((Harm::Reply, done.access.addr().line()))
            }
        }
    }
}

/// The harm after an event that touched these lines. A wrong reply comes first.
pub fn harm_after(
    parts: &Parts,
    flat: &mut Flat,
    event: &Event,
    touched: Touched,
) -> Option<(Harm, LineNo)>
    requires done { DoneWithin (length flat.old) (done_in event.now) }
    requires lines { length flat.old ≡ 4 * length parts.now.memory.items }
    requires few { length parts.now.memory.items ≤ 4096 }
    ensures harm { (memory : List ℕ) (history : List Entry) → IsLatest flat.old memory history
        → result
        ≡ first_of_harms (reply_harm memory history (done_in event.now))
        (lowest_touched (harm_within
        (harm_at memory (entries_with history event.now) (shown parts.now))
        (length parts.now.memory.items)) touched) }
    ensures latest { (memory : List ℕ) (history : List Entry) → IsLatest flat.old memory history
        → IsLatest flat.new memory (entries_with history event.now) }
    ensures long { length flat.new ≡ length flat.old }
{
    let reply = reply_harm(flat, &done_in(event));
    let lines = touched_harm(parts, flat, touched);
    match reply {
        Some(harm) => Some(harm),
        None => lines,
    }
}
