//! The parts of the auditor's machine.

ghost use Rattle.std.specs.Prelude.{◌≡◌, ◌<◌, if◌then◌else◌, length, slice_set};
ghost use Rattle.bus_model.specs.Configuration.{memory_line};

use crate::arbitration::Arbitration;
use crate::copies::Held;
use crate::course::Course;
use crate::phase::Phase;
use bus_signals::LineNo;

/// The lines of memory, the rows of all boards, what each board has done, the phase of the bus, and
/// how it is arbitrated.
#[derive(Drop)]
pub struct Parts {
    pub memory: Vec<[u32; 4]>,
    pub rows: Vec<Held>,
    pub boards: Vec<Course>,
    pub phase: Phase,
    pub arbitration: Arbitration,
}

/// A line of memory, or four words 0 where there is none.
pub fn line_of(memory: &[[u32; 4]], line: LineNo) -> [u32; 4]
    ensures { result ≡ memory_line memory.now line }
{
    match memory.get(line.0 as usize) {
        Some(words) => *words,
        None => [0; 4],
    }
}

/// Gives a line of memory these words.
pub fn put_line(memory: &mut [[u32; 4]], line: LineNo, words: [u32; 4])
    ensures { memory.new ≡ slice_set memory.old line words }
{
    if (line.0 as usize) < memory.len() {
        memory[line.0 as usize] = words;
    }
}
