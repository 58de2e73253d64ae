//! Room for the lines of a run.

ghost use Rattle.run_text.specs.Printing.{IsReady};

use fb_text::Text;
use no_memory::NoMemory;
use std::alloc::Global;

/// Room for any one line of a run. It is made before anything is printed, so that printing takes no
/// memory.
#[derive(Drop)]
pub struct Room {
    pub line: Text,
    ghost ready: { IsReady line },
}

/// The most bytes of a line.
const LINE: usize = 256;

impl Room {
    pub fn new(alloc: Global) -> Result<Room, NoMemory> {
        let mut line = Text::new(alloc);
        line.reserve(LINE)?;
        Ok(Room { line })
    }
}
