//! Reading a schedule.

ghost use Rattle.std.specs.Prelude.{◌≡◌, ◌<◌, ◌≤◌, ◌^◌, ℕ, List, length, IfOk, IfErr};
ghost use Rattle.fb_text.specs.Places.{items, text_places};
ghost use Rattle.fb_text.specs.Unread.{unread};
ghost use Rattle.table_text.specs.Reading.{StaysOnLine};
ghost use Rattle.setup_text.specs.Spelling.{ScheduleFits, schedule_items};
ghost use Rattle.setup_text.specs.Values.{turns_of};
ghost use Rattle.setup_text.specs.Grammars.{schedule_grammar};
ghost use Rattle.setup_text.specs.Correct.{IsSchedule, ArePlaces, IsReadAs, IsFirstFault};
ghost use Rattle.setup_text.specs.Reading.{Gives, Answers, place_in, places_on, schedule_at};

use crate::fault::{SetupFault, SetupKind};
use crate::words::bad;
use fb_text::{Scan, number_within};
use std::alloc::Global;

/// Reads a word as the place of one of so many boards.
fn place(scan: &Scan, word: &[u8], boards: u8) -> Result<u8, SetupFault>
    ensures { Gives (λ p. p) result scan.now.line (place_in boards word.now) }
{
    match number_within(Some(word), u64::from(boards)) {
        Ok(place) if place > 0 => Ok(place as u8),
        _ => Err(bad(scan, SetupKind::Number)),
    }
}

/// Reads the places on a line.
fn places(scan: &mut Scan, boards: u8, turns: &mut Vec<u8>) -> Result<(), SetupFault>
    ensures value { Gives (λ _. turns.new.items) result scan.old.line
        (places_on boards turns.old.items scan.old.words) }
    ensures stays { StaysOnLine scan.old scan.new }
{
    while let Some(word) = scan.next_word() {
        let place = place(scan, word, boards)?;
        let Ok(()) = turns.push(place) else {
            return Err(SetupFault::NoMemory);
        };
    }
    Ok(())
}

fn schedule(alloc: Global, bytes: &[u8], boards: u8) -> Result<Vec<u8>, SetupFault>
    requires { length bytes.now < 2 ^ 31 }
    ensures { Answers (λ v. v.items) result (schedule_at boards (unread bytes.now)) }
{
    let mut scan = Scan::over(bytes);
    let mut turns = Vec::new(alloc);
    while scan.next_line() {
        places(&mut scan, boards, &mut turns)?;
    }
    Ok(turns)
}

/// Reads a schedule: the places of boards, one or more to a line.
pub fn read_schedule(alloc: Global, bytes: &[u8], boards: u8) -> Result<Vec<u8>, SetupFault>
    requires short { length bytes.now < 2 ^ 31 }
    requires low { 1 ≤ boards }
    requires high { boards ≤ 16 }
    // The text spells the places that were read.
    ensures spelled { IfOk result (λ v. IsSchedule boards bytes.now v.items) }
    // Places that the text spells are read.
    ensures only { (lines : List (List ℕ)) → ScheduleFits boards lines
        → items (text_places bytes.now) ≡ schedule_items lines
        → IsReadAs (λ v. v.items) result (turns_of lines) }
    // Each is the place of a board.
    ensures places { IfOk result (λ v. ArePlaces boards v.items) }
    // A fault has the line and the kind of the first place at fault.
    ensures first { IfErr result (IsFirstFault (schedule_grammar boards) bytes.now) }
    // Which places or which fault it is.
    ensures exact { Answers (λ v. v.items) result (schedule_at boards (unread bytes.now)) }
{
    schedule(alloc, bytes, boards)
}
