//! The lines of what a run moved.

ghost use Rattle.std.specs.Prelude.{◌≡◌, ◌≤◌, ◌<◌, ◌^◌, ◌+◌, ◌*◌, ◌++◌, ◌∷◌, [], length, codes, decimal};
ghost use Rattle.fb_text.specs.Written.{KeepsRoom, Appends};
ghost use Rattle.table_library.specs.Lines.{board_line, board_lines, traffic_text};
ghost use Rattle.table_library.specs.Traffic.{counts_at};

use crate::counting::traffic;
use crate::counts::Counts;
use crate::report::Traffic;
use bus_signals::BoardNo;
use fb_text::Text;
use journal::Event;

/// Appends a word and a number after others on a line.
fn field(text: &mut Text, word: &str, value: u64)
    requires room { 30 ≤ text.old.spare }
    requires short { length word.now ≤ 8 }
    ensures appends { Appends text.old text.new (32 ∷ (word.now ++ 32 ∷ decimal value)) 30 }
{
    text.push(b" ");
    text.push(word.as_bytes());
    text.push(b" ");
    text.number(value);
}

/// Appends how often words were supplied and taken, at the end of a line.
fn supplied_and_taken(text: &mut Text, served: u64, took: u64)
    requires { 61 ≤ text.old.spare }
    ensures appends { Appends text.old text.new
        (32 ∷ (codes "served" ++ 32 ∷ (decimal served
        ++ 32 ∷ (codes "took" ++ 32 ∷ (decimal took ++ 10 ∷ []))))) 61 }
{
    field(text, "served", served);
    field(text, "took", took);
    text.push(b"\n");
}

/// Appends the line of a board.
fn board_line(text: &mut Text, board: BoardNo, counts: Counts)
    requires { 200 ≤ text.old.spare }
    ensures appends { Appends text.old text.new (board_line board counts) 200 }
{
    text.push(b"traffic ");
    text.number(u64::from(board.0));
    field(text, "connects", counts.connects);
    field(text, "words", counts.words);
    field(text, "local", counts.local);
    supplied_and_taken(text, counts.served, counts.took);
}

/// Appends the lines of the first boards.
fn board_lines(text: &mut Text, report: &Traffic, boards: u8)
    requires most { boards ≤ 16 }
    requires room { 200 * boards ≤ text.old.spare }
    ensures appends { Appends text.old text.new (board_lines (counts_at report.now) boards)
        (200 * boards) }
{
    for place in 0..boards {
        let board = BoardNo(place + 1);
        board_line(text, board, report.board(board));
    }
}

/// Appends the lines of what a run of this many boards moved.
pub fn write_traffic(journal: &[Event], boards: u8, text: &mut Text)
    requires events { length journal.now < 2 ^ 32 }
    requires most { boards ≤ 16 }
    requires room { 4096 ≤ text.old.spare }
    ensures lines { text.new.bytes ≡ text.old.bytes ++ traffic_text journal.now boards }
    ensures kept { KeepsRoom text.old text.new }
{
    let report = traffic(journal);
    board_lines(text, &report, boards);
    let (served, took) = report.memory();
    text.push(b"traffic memory");
    supplied_and_taken(text, served, took);
}
