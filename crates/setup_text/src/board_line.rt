//! Reading a board line.

ghost use Rattle.std.specs.Prelude.{◌≡◌, ◌<◌, ◌≤◌, ◌*◌, true, false, map, length, IfOk};
ghost use Rattle.table_text.specs.Reading.{StaysOnLine};
ghost use Rattle.setup.specs.Setup.{BoardFits};
ghost use Rattle.setup_text.specs.Drafts.{IsKnown, IsShape};
ghost use Rattle.setup_text.specs.Reading.{Gives, number_at, choose_at, frames_at, shape_at, place_at, has_number, board_number_at, table_name_at, board_front, board_table, board_back, board_line};

use crate::draft::Draft;
use crate::fault::{LimitOf, SetupFault, SetupKind};
use crate::tables::Tables;
use crate::words::{bad, limit, line_end, name, number, number_from_one, this_word};
use class_words::is;
use fb_text::Scan;
use table_check::{BoardSpec, Choose, Shape};

/// Reads how a board chooses.
#[tactic(auto, unfolding(crate::specs::Reading::choose_at))]
fn choose(scan: &mut Scan) -> Result<Choose, SetupFault>
    ensures value { Gives (λ c. (c, scan.new.words)) result scan.old.line
        (choose_at scan.old.words) }
    ensures stays { StaysOnLine scan.old scan.new }
{
    let Some(word) = scan.next_word() else {
        return Err(bad(scan, SetupKind::UnknownWord));
    };
    if is(word, "first") {
        return Ok(Choose::First);
    }
    if is(word, "round") {
        return Ok(Choose::Round);
    }
    if is(word, "seed") {
        let seed = number(scan, 18446744073709551615)?;
        return Ok(Choose::Seed(seed));
    }
    Err(bad(scan, SetupKind::UnknownWord))
}

/// Reads the sets and ways after the word `cached`.
#[tactic(auto, unfolding(crate::specs::Reading::frames_at))]
fn frames(scan: &mut Scan) -> Result<Shape, SetupFault>
    ensures value { Gives (λ s. (s, scan.new.words)) result scan.old.line
        (frames_at scan.old.words) }
    ensures fits { IfOk result (IsShape false) }
    ensures stays { StaysOnLine scan.old scan.new }
{
    let sets = number_from_one(scan, 256)?;
    let ways = number_from_one(scan, 256)?;
    let frames = sets * ways;
    if frames > 256 {
        return Err(limit(scan, LimitOf::Frames, frames));
    }
    Ok(Shape::Cached {
        sets: sets as u16,
        ways: ways as u16,
    })
}

/// Reads the cache of a board. `plain` says whether its table reaches no state but I.
#[tactic(auto, unfolding(crate::specs::Reading::shape_at))]
fn shape(scan: &mut Scan, plain: bool) -> Result<Shape, SetupFault>
    ensures value { Gives (λ s. (s, scan.new.words)) result scan.old.line
        (shape_at plain scan.old.words) }
    ensures fits { IfOk result (IsShape plain) }
    ensures stays { StaysOnLine scan.old scan.new }
{
    let Some(word) = scan.next_word() else {
        return Err(bad(scan, SetupKind::UnknownWord));
    };
    if is(word, "plain") {
        if plain {
            return Ok(Shape::Plain);
        }
        return Err(bad(scan, SetupKind::NoFrames));
    }
    if is(word, "cached") {
        return frames(scan);
    }
    Err(bad(scan, SetupKind::UnknownWord))
}

/// Reads the place of a board, which must be the next one after so many boards.
#[tactic(auto, unfolding(crate::specs::Reading::place_at))]
fn place(scan: &mut Scan, boards: u64) -> Result<(), SetupFault>
    requires { boards ≤ 16 }
    ensures value { Gives (λ _. scan.new.words) result scan.old.line
        (place_at boards scan.old.words) }
    ensures stays { StaysOnLine scan.old scan.new }
{
    let place = number(scan, 4294967295)?;
    if place != boards + 1 {
        return Err(bad(scan, SetupKind::Number));
    }
    Ok(())
}

/// Whether a board has the number.
fn has_number(boards: &[BoardSpec], number: u16) -> bool
    ensures { result ≡ has_number boards.now number }
{
    boards.iter().any(|board| board.number == number)
}

/// Reads a number that no board has yet.
#[tactic(auto, unfolding(crate::specs::Reading::board_number_at))]
fn board_number(scan: &mut Scan, boards: &[BoardSpec]) -> Result<u16, SetupFault>
    ensures value { Gives (λ n. (n, scan.new.words)) result scan.old.line
        (board_number_at boards.now scan.old.words) }
    ensures least { IfOk result (λ n. 1 ≤ n) }
    ensures most { IfOk result (λ n. n ≤ 1023) }
    ensures new { IfOk result (λ n. has_number boards.now n ≡ false) }
    ensures stays { StaysOnLine scan.old scan.new }
{
    let number = number_from_one(scan, 1023)? as u16;
    if has_number(boards, number) {
        return Err(bad(scan, SetupKind::TwiceNumber));
    }
    Ok(number)
}

/// Reads a board line from its place to its number.
#[tactic(auto, unfolding(crate::specs::Reading::board_front))]
fn front(scan: &mut Scan, boards: &[BoardSpec]) -> Result<u16, SetupFault>
    requires { length boards.now ≤ 16 }
    ensures value { Gives (λ n. (n, scan.new.words)) result scan.old.line
        (board_front boards.now scan.old.words) }
    ensures least { IfOk result (λ n. 1 ≤ n) }
    ensures most { IfOk result (λ n. n ≤ 1023) }
    ensures new { IfOk result (λ n. has_number boards.now n ≡ false) }
    ensures stays { StaysOnLine scan.old scan.new }
{
    place(scan, boards.len() as u64)?;
    this_word(scan, "number")?;
    board_number(scan, boards)
}

/// Reads the name of a table. Returns its place, and whether the table reaches no state but I.
#[tactic(auto, unfolding(crate::specs::Reading::table_name_at))]
fn table_name(scan: &mut Scan, tables: &Tables) -> Result<(u32, bool), SetupFault>
    ensures value { Gives (λ t. (t.0, t.1, scan.new.words)) result scan.old.line
        (table_name_at tables.now scan.old.words) }
    ensures known { IfOk result (IsKnown tables.now) }
    ensures stays { StaysOnLine scan.old scan.new }
{
    let name = name(scan)?;
    match tables.find(name.bytes()) {
        Some(table) => Ok(table),
        None => Err(bad(scan, SetupKind::NoTable)),
    }
}

/// Reads the word `table` and the name of a table.
#[tactic(auto, unfolding(crate::specs::Reading::board_table))]
fn table(scan: &mut Scan, tables: &Tables) -> Result<(u32, bool), SetupFault>
    ensures value { Gives (λ t. (t.0, t.1, scan.new.words)) result scan.old.line
        (board_table tables.now scan.old.words) }
    ensures known { IfOk result (IsKnown tables.now) }
    ensures stays { StaysOnLine scan.old scan.new }
{
    this_word(scan, "table")?;
    table_name(scan, tables)
}

/// Reads the chooser and the end of the line.
#[tactic(auto, unfolding(crate::specs::Reading::board_back))]
fn back(scan: &mut Scan) -> Result<Choose, SetupFault>
    ensures value { Gives (λ c. c) result scan.old.line (board_back scan.old.words) }
    ensures stays { StaysOnLine scan.old scan.new }
{
    this_word(scan, "choose")?;
    let choose = choose(scan)?;
    line_end(scan)?;
    Ok(choose)
}

/// Reads a board line after its first word.
#[tactic(auto, unfolding(crate::specs::Reading::board_line))]
pub fn board(scan: &mut Scan, draft: &Draft) -> Result<BoardSpec, SetupFault>
    ensures value { Gives (λ b. b) result scan.old.line (board_line draft.now scan.old.words) }
    ensures fits { IfOk result (λ b. BoardFits draft.now b) }
    ensures new { IfOk result (λ b. has_number draft.now.boards b.number ≡ false) }
    ensures stays { StaysOnLine scan.old scan.new }
{
    let number = front(scan, draft.boards())?;
    let (table, plain) = table(scan, draft.tables())?;
    let shape = shape(scan, plain)?;
    let choose = back(scan)?;
    Ok(BoardSpec {
        number,
        table,
        shape,
        choose,
    })
}
