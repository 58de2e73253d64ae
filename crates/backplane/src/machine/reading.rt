//! What the machine shows.

ghost use Rattle.std.specs.Prelude.{true, ◌≡◌, ◌↔◌, ◌*◌, ◌<◌, ◌≤◌, ℕ, Some, None, IsTrue, IsNone, length, find, is_some, option_map, slice_get};
ghost use Rattle.bus_signals.specs.declared.Access.{Access};
ghost use Rattle.moesi_state.specs.declared.State.TheVariants.{I};
ghost use Rattle.bus_model.specs.Setup.{line_count, access_count, board_places, WellFormed, AllInClass};
ghost use Rattle.bus_model.specs.Configuration.{Row, row_at, state_at, memory_line, present_access};
ghost use Rattle.bus_model.specs.Runs.{Run, Complete};
ghost use Rattle.bus_model.specs.Entries.{entries, entries_of, Legal};
ghost use Rattle.bus_model.specs.Fairness.{GrantsAreFair};
ghost use Rattle.bus_model.specs.Soundness.{Sound};
ghost use Rattle.backplane.specs.Machine.{configuration, IsBoard};
ghost use Rattle.backplane.specs.Needs.{needed, reply_count};

use crate::machine::Machine;
use crate::needs::need;
use bus_signals::{Access, BoardNo, LineNo};
use data_phase::get_memory;
use flat_memory::Entry;
use journal::Event;
use line_pool::FrameNo;
use moesi_state::State;

/// The access at a place of a script, from 0.
fn access_at(script: &[Access], place: u32) -> Option<Access>
    ensures { result ≡ slice_get script.now place }
{
    script.get(place as usize).copied()
}

impl Machine {
    /// The number of boards.
    pub fn boards(&self) -> u8
        ensures boards { result ≡ length self.now.setup.boards }
        ensures few { (1 ≤ length self.now.setup.boards) × (length self.now.setup.boards ≤ 16) }
    {
        self.parts.rack.boards()
    }

    /// What has happened, in order. It is a run of the setup, so it is coherent at each of its
    /// events, and its reads got the latest earlier writes.
    pub fn journal(&self) -> &[Event]
        ensures journal { result.now ≡ self.now.journal }
        ensures setup { WellFormed self.now.setup }
        ensures accepted { AllInClass self.now.setup }
        ensures run { Run self.now.setup self.now.journal (configuration self.now) }
        ensures sound { Sound self.now.setup self.now.journal (configuration self.now) }
        ensures legal { Legal self.now.setup.memory (entries self.now.journal) }
        ensures fair { self.now.setup.fair ≡ true
            → GrantsAreFair self.now.journal (configuration self.now).boards }
        ensures bounded { length self.now.journal ≤ 8 * access_count self.now.setup }
    {
        &self.journal
    }

    /// The replies of all boards together, and their rows, are within what the setup needs.
    pub(crate) fn within_need(&self)
        ensures replies { reply_count self.now ≤ (needed self.now.setup).replies }
        ensures rows { length (configuration self.now).rows ≤ (needed self.now.setup).frames }
    {
        let _pool = self.parts.rack.pool(); // gives the counts to the prover
    }

    /// The words of the only frame that a machine has, where a board has a copy: the frame is out
    /// then, and none is free. No caller of the machine sees frames; this is for the test of the
    /// pool.
    pub(crate) fn only_frame(&self, board: BoardNo, line: LineNo) -> Option<[u32; 4]>
        requires { IsBoard self.now board }
    {
        if need(&self.setup).frames != 1 {
            return None;
        }
        let Some(_) = self.copy(board, line) else {
            return None;
        };
        Some(self.parts.rack.pool().words(FrameNo(0)))
    }

    /// The completed accesses of a board, in order.
    pub fn replies(&self, board: BoardNo) -> &[Entry]
        requires { IsBoard self.now board }
        ensures { result.now ≡ entries_of board (entries self.now.journal) }
    {
        self.histories.of(board)
    }

    /// The access that a board is to do next.
    pub(crate) fn present(&self, board: BoardNo) -> Option<Access>
        requires { IsBoard self.now board }
        ensures { result ≡ present_access self.now.setup (configuration self.now).boards board }
    {
        let place = self.parts.place(board);
        access_at(self.setup.script(board), place)
    }

    /// The lowest board whose script is not at its end.
    pub fn unfinished(&self) -> Option<BoardNo>
        ensures lowest { result
            ≡ find (λ board.
            is_some (present_access self.now.setup (configuration self.now).boards board))
            (board_places self.now.setup) }
        ensures none { IsNone result ↔ Complete self.now.setup (configuration self.now) }
    {
        for place in 0..self.parts.rack.boards() {
            let board = BoardNo(place + 1);
            if self.present(board).is_some() {
                return Some(board);
            }
        }
        None
    }

    /// Whether every script is at its end. The bus is idle then.
    pub fn finished(&self) -> bool
        ensures { IsTrue result ↔ Complete self.now.setup (configuration self.now) }
    {
        self.unfinished().is_none()
    }

    /// The number of lines of memory.
    pub fn lines(&self) -> u32
        ensures { result ≡ line_count self.now.setup }
    {
        self.parts.memory.lines()
    }

    /// The words of a line of memory.
    pub fn memory_line(&self, line: LineNo) -> [u32; 4]
        requires { line < line_count self.now.setup }
        ensures { result ≡ memory_line (configuration self.now).memory line }
    {
        get_memory(&self.parts.memory, line)
    }

    /// The state and the words of a board's copy of a line.
    pub fn copy(&self, board: BoardNo, line: LineNo) -> Option<(State, [u32; 4])>
        requires { IsBoard self.now board }
        ensures copy { result
            ≡ option_map (λ (row : Row). (row.state, row.words))
            (row_at (configuration self.now).rows board line) }
        ensures none { IsNone result ↔ (state_at (configuration self.now).rows board line ≡ I) }
    {
        let Some(words) = self.parts.rack.words(board, line) else {
            return None;
        };
        Some((self.parts.rack.state_of(board, line), words))
    }
}
