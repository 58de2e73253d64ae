//! Reading a setup, line after line.

ghost use Rattle.std.specs.Prelude.{◌≡◌, ◌<◌, ◌≤◌, ◌^◌, ◌∷◌, true, false, codes, length, IfOk, IfErr, OnOk, ◌++◌, ℕ, List};
ghost use Rattle.std.specs.Str.{bytes_eq};
ghost use Rattle.fb_text.specs.Places.{items, text_places};
ghost use Rattle.fb_text.specs.Unread.{unread};
ghost use Rattle.setup.specs.Setup.{Setup};
ghost use Rattle.table_text.specs.Reading.{StaysOnLine};
ghost use Rattle.setup_text.specs.Spelling.{SetupText, setup_items};
ghost use Rattle.setup_text.specs.Values.{setup_of};
ghost use Rattle.setup_text.specs.Grammars.{setup_grammar};
ghost use Rattle.setup_text.specs.Correct.{SetupStands, IsSetup, IsReadAs, IsFirstFault};
ghost use Rattle.setup_text.specs.Reading.{Mode, Gives, Answers, GoesOn, mode_after, then_lines, word_line, table_head, board_added, access_read, end_line, body_line, first_line, arbiter_line, second_line, lines_at, setup_at};
ghost use Rattle.setup_text.specs.Writing.{written_setup, IsWholeSetup, lines_behind, IsReadBefore};

use crate::board_line::board;
use crate::draft::Draft;
use crate::fault::{LimitOf, SetupFault, SetupKind};
use crate::table_lines::table;
use crate::words::{access, bad, limit, line_end, memory_lines, this_word, value_line};
use bus_signals::LocalEvent;
use class_words::{is, local_event_of};
use fb_text::Scan;
use setup::Setup;
use std::alloc::Global;

/// Reads a `word` line after its first word.
fn word_line(scan: &mut Scan, draft: &mut Draft) -> Result<(), SetupFault>
    ensures value { Gives (λ _. Mode.body draft.new) result scan.old.line
        (word_line draft.old scan.old.words) }
    ensures stays { StaysOnLine scan.old scan.new }
{
    if draft.tables().len() > 0 || draft.boards().len() > 0 {
        return Err(bad(scan, SetupKind::UnknownWord));
    }
    let (addr, value) = value_line(scan, draft.words())?;
    draft.set_word(addr, value);
    Ok(())
}

/// Reads a table after its first word.
fn table_lines(alloc: Global, scan: &mut Scan, draft: &mut Draft) -> Result<(), SetupFault>
    ensures exact { GoesOn lines_at (λ _. Mode.body draft.new) result scan.new
        (then_lines lines_at scan.old (table_head draft.old scan.old.words)) }
    ensures shorter { OnOk result (length scan.new.lines ≤ length scan.old.lines) }
{
    if draft.boards().len() > 0 {
        return Err(bad(scan, SetupKind::UnknownWord));
    }
    let table = table(alloc, scan, draft.tables())?;
    draft.push_table(table)?;
    Ok(())
}

/// Reads a board line after its first word.
fn board_line(scan: &mut Scan, draft: &mut Draft) -> Result<(), SetupFault>
    ensures value { Gives (λ _. Mode.body draft.new) result scan.old.line
        (board_added draft.old scan.old.words) }
    ensures stays { StaysOnLine scan.old scan.new }
{
    if draft.boards().len() >= 16 {
        return Err(limit(scan, LimitOf::Boards, 17));
    }
    let board = board(scan, draft)?;
    draft.push_board(board)?;
    Ok(())
}

/// Reads an access after its first word.
fn access_line(scan: &mut Scan, draft: &mut Draft, event: LocalEvent) -> Result<(), SetupFault>
    ensures value { Gives (λ _. Mode.body draft.new) result scan.old.line
        (access_read draft.old event scan.old.words) }
    ensures stays { StaysOnLine scan.old scan.new }
{
    if draft.boards().is_empty() {
        return Err(bad(scan, SetupKind::UnknownWord));
    }
    if draft.accesses() >= 100000 {
        return Err(limit(scan, LimitOf::Accesses, 100001));
    }
    let access = access(scan, draft.words(), event)?;
    draft.push_access(access)?;
    Ok(())
}

/// Reads the `end` line after its first word.
fn end_line(scan: &mut Scan, draft: &Draft) -> Result<(), SetupFault>
    ensures value { Gives (λ _. Mode.ended draft.now) result scan.old.line
        (end_line draft.now scan.old.words) }
    ensures some { OnOk result (1 ≤ length draft.now.boards) }
    ensures stays { StaysOnLine scan.old scan.new }
{
    if draft.boards().is_empty() {
        return Err(limit(scan, LimitOf::Boards, 0));
    }
    line_end(scan)
}

/// Reads one line or one table after its first word, which is not `end`.
#[tactic(auto, unfolding(crate::specs::Reading::body_line))]
fn part(alloc: Global, scan: &mut Scan, draft: &mut Draft, word: &[u8]) -> Result<(), SetupFault>
    requires { bytes_eq word.now (codes "end") ≡ false }
    ensures exact { GoesOn lines_at (λ _. Mode.body draft.new) result scan.new
        (then_lines lines_at scan.old (body_line draft.old (word.now ∷ scan.old.words))) }
    ensures shorter { OnOk result (length scan.new.lines ≤ length scan.old.lines) }
{
    if is(word, "word") {
        return word_line(scan, draft);
    }
    if is(word, "table") {
        return table_lines(alloc, scan, draft);
    }
    if is(word, "board") {
        return board_line(scan, draft);
    }
    match local_event_of(word) {
        Some(event) => access_line(scan, draft, event),
        None => Err(bad(scan, SetupKind::UnknownWord)),
    }
}

/// Reads one line or one table after its first word. Returns whether it was the `end` line.
#[tactic(auto, unfolding(crate::specs::Reading::body_line))]
fn line_after(
    alloc: Global,
    scan: &mut Scan,
    draft: &mut Draft,
    word: &[u8],
) -> Result<bool, SetupFault>
    ensures exact { GoesOn lines_at (mode_after draft.new) result scan.new
        (then_lines lines_at scan.old (body_line draft.old (word.now ∷ scan.old.words))) }
    ensures shorter { OnOk result (length scan.new.lines ≤ length scan.old.lines) }
    ensures some { IfOk result (λ ended. ended ≡ true → 1 ≤ length draft.new.boards) }
{
    if is(word, "end") {
        end_line(scan, draft)?;
        return Ok(true);
    }
    part(alloc, scan, draft, word)?;
    Ok(false)
}

/// Reads one line or one table. Returns whether it was the `end` line.
#[tactic(auto, unfolding(crate::specs::Reading::body_line))]
fn line(alloc: Global, scan: &mut Scan, draft: &mut Draft) -> Result<bool, SetupFault>
    ensures exact { GoesOn lines_at (mode_after draft.new) result scan.new
        (then_lines lines_at scan.old (body_line draft.old scan.old.words)) }
    ensures shorter { OnOk result (length scan.new.lines ≤ length scan.old.lines) }
    ensures some { IfOk result (λ ended. ended ≡ true → 1 ≤ length draft.new.boards) }
{
    let Some(word) = scan.next_word() else {
        return Err(bad(scan, SetupKind::UnknownWord));
    };
    line_after(alloc, scan, draft, word)
}

/// Reads the `arbiter` line after its first word.
#[tactic(auto, unfolding(crate::specs::Reading::arbiter_line))]
fn arbiter_line(scan: &mut Scan, draft: &mut Draft) -> Result<(), SetupFault>
    ensures value { Gives (λ _. Mode.body draft.new) result scan.old.line
        (arbiter_line draft.old scan.old.words) }
    ensures stays { StaysOnLine scan.old scan.new }
{
    this_word(scan, "fair")?;
    line_end(scan)?;
    draft.set_fair();
    Ok(())
}

/// Reads the line or the table after the `memory` line. Returns whether it was the `end` line.
#[tactic(auto, unfolding(crate::specs::Reading::second_line))]
fn second_line(alloc: Global, scan: &mut Scan, draft: &mut Draft) -> Result<bool, SetupFault>
    ensures exact { GoesOn lines_at (mode_after draft.new) result scan.new
        (then_lines lines_at scan.old (second_line draft.old scan.old.words)) }
    ensures shorter { OnOk result (length scan.new.lines ≤ length scan.old.lines) }
    ensures some { IfOk result (λ ended. ended ≡ true → 1 ≤ length draft.new.boards) }
{
    let Some(word) = scan.next_word() else {
        return Err(bad(scan, SetupKind::UnknownWord));
    };
    if is(word, "arbiter") {
        arbiter_line(scan, draft)?;
        return Ok(false);
    }
    line_after(alloc, scan, draft, word)
}

/// Reads the words of the `memory` line.
#[tactic(auto, unfolding(crate::specs::Reading::first_line))]
fn memory_rest(alloc: Global, scan: &mut Scan) -> Result<Draft, SetupFault>
    ensures value { Gives (λ d. Mode.headed d) result scan.old.line (first_line scan.old.words) }
    ensures stays { StaysOnLine scan.old scan.new }
{
    this_word(scan, "memory")?;
    let lines = memory_lines(scan)?;
    let draft = Draft::new(alloc, lines)?;
    Ok(draft)
}

/// Reads the first line, which is the `memory` line.
fn memory_line(alloc: Global, scan: &mut Scan) -> Result<Draft, SetupFault>
    ensures { GoesOn lines_at (λ d. Mode.headed d) result scan.new (setup_at scan.old) }
{
    if !scan.next_line() {
        return Err(bad(scan, SetupKind::NoEnd));
    }
    memory_rest(alloc, scan)
}

/// Checks that no line with words is left, and gives the setup.
fn text_end(scan: &mut Scan, draft: Draft) -> Result<Setup, SetupFault>
    requires { 1 ≤ length draft.boards }
    ensures { Answers (λ s. s) result (lines_at (Mode.ended draft) scan.old.lines scan.old.end) }
{
    if scan.next_line() {
        return Err(bad(scan, SetupKind::UnknownWord));
    }
    Ok(draft.finish())
}

/// Reads the lines after others, up to the end of the text.
fn rest(alloc: Global, scan: &mut Scan, mut draft: Draft) -> Result<Setup, SetupFault>
    ensures { Answers (λ s. s) result (lines_at (Mode.body draft) scan.old.lines scan.old.end) }
{
    while scan.next_line() {
        if line(alloc, scan, &mut draft)? {
            return text_end(scan, draft);
        }
    }
    Err(bad(scan, SetupKind::NoEnd))
}

fn setup(alloc: Global, bytes: &[u8]) -> Result<Setup, SetupFault>
    requires { length bytes.now < 2 ^ 31 }
    ensures { Answers (λ s. s) result (setup_at (unread bytes.now)) }
{
    let mut scan = Scan::over(bytes);
    let mut draft = memory_line(alloc, &mut scan)?;
    if !scan.next_line() {
        return Err(bad(&scan, SetupKind::NoEnd));
    }
    if second_line(alloc, &mut scan, &mut draft)? {
        return text_end(&mut scan, draft);
    }
    rest(alloc, &mut scan, draft)
}

/// Reads a setup.
pub fn read_setup(alloc: Global, bytes: &[u8]) -> Result<Setup, SetupFault>
    requires { length bytes.now < 2 ^ 31 }
    // The text spells the setup that was read.
    ensures spelled { IfOk result (IsSetup bytes.now) }
    // A setup that the text spells is read.
    ensures only { (s : SetupText) → SetupStands s → items (text_places bytes.now) ≡ setup_items s
        → IsReadAs (λ x. x) result (setup_of s) }
    // A setup that was written is read back. Only a word after it is at fault.
    ensures written { (s : Setup) (rest : List ℕ) → IsWholeSetup s
        → bytes.now ≡ written_setup s ++ rest → IsReadBefore (lines_behind s rest) result s }
    // A fault has the line and the kind of the first place at fault.
    ensures first { IfErr result (IsFirstFault setup_grammar bytes.now) }
    // Which setup or which fault it is.
    ensures exact { Answers (λ s. s) result (setup_at (unread bytes.now)) }
{
    setup(alloc, bytes)
}
