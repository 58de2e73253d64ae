//! A board that keeps its rows in one list, words and all. The tests compare the rack and its pool
//! with it.

use crate::Change;
use moesi_state::State;
use std::alloc::{AllocError, Global};

/// A row of the board: its line, state and words, and its fill number.
#[derive(Clone, Copy, Debug, PartialEq, Eq, Drop)]
pub struct ListedRow {
    pub line: u32,
    pub state: State,
    pub words: [u32; 4],
    pub fill: u64,
}

/// A cached board with its rows in order of fill.
#[derive(Drop)]
pub struct ListedBoard {
    sets: u32,
    ways: usize,
    rows: Vec<ListedRow>,
    fills: u64,
}

/// The words of a line after a change.
fn changed_words(change: Change, words: [u32; 4]) -> [u32; 4] {
    match change {
        Change::Keep => words,
        Change::Word(addr, value) => {
            let mut words = words;
            words[(addr % 4) as usize] = value;
            words
        }
        Change::Line(new) => new,
    }
}

impl ListedBoard {
    /// A board without rows.
    pub fn new(alloc: Global, sets: u32, ways: usize) -> ListedBoard {
        ListedBoard {
            sets,
            ways,
            rows: Vec::new(alloc),
            fills: 0,
        }
    }

    /// How many rows the board has filled.
    pub fn fills(&self) -> u64 {
        self.fills
    }

    /// The row of a line.
    pub fn row(&self, line: u32) -> Option<ListedRow> {
        for row in &self.rows {
            if row.line == line {
                return Some(*row);
            }
        }
        None
    }

    /// The line that must go before a row of this line can be filled.
    pub fn victim(&self, line: u32) -> Option<u32> {
        let sets = self.sets.max(1);
        let mut oldest = None;
        let mut free = self.ways;
        for row in &self.rows {
            if row.line == line {
                return None;
            }
            if row.line % sets == line % sets {
                oldest = oldest.or(Some(row.line));
                free = free.saturating_sub(1);
            }
        }
        if free == 0 { oldest } else { None }
    }

    /// Adds a row with the next fill number.
    pub fn put_line(&mut self, line: u32, words: [u32; 4], state: State) -> Result<(), AllocError> {
        let fill = self.fills;
        self.rows.push(ListedRow {
            line,
            state,
            words,
            fill,
        })?;
        self.fills = fill.wrapping_add(1);
        Ok(())
    }

    /// Gives the row of a line a state and changes its words. The state I removes the row.
    pub fn change(&mut self, line: u32, state: State, change: Change) {
        for row in self.rows.iter_mut() {
            if row.line == line {
                row.state = state;
                row.words = changed_words(change, row.words);
            }
        }
        self.rows.retain(|row| row.state.holds());
    }
}
