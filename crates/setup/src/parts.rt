//! A setup, within its limits and side conditions.

ghost use Rattle.std.specs.Prelude.{◌≡◌, ◌≤◌, ◌-◌, length, slice_index_or, []};
ghost use Rattle.class_relation.specs.Rows.{rows};
ghost use Rattle.setup.specs.Setup.{WellFormed, access_count};

use bus_signals::{Access, BoardNo};
use class_relation::Table;
use std::marker::Model;
use table_check::BoardSpec;

/// The words of memory, whether arbitration is fair, the tables, the boards and their scripts.
/// Contracts see it as these.
#[derive(Drop)]
pub struct Setup {
    memory: Vec<u32>,
    fair: bool,
    tables: Vec<Table>,
    boards: Vec<BoardSpec>,
    scripts: Vec<Vec<Access>>,
}

impl Model for Setup {
    ghost use Rattle.class_relation.specs.Rows.{rows};
    ghost use Rattle.setup.specs.Setup.{Setup, WellFormed};

    ghost Value = { Setup };

    ghost view = { λ s. record {
      memory = s.memory.items;
      fair = s.fair;
      tables = s.tables.items;
      boards = s.boards.items;
      scripts = rows s.scripts.items;
    } };

    ghost invariant = { λ s. WellFormed (record {
      memory = s.memory.items;
      fair = s.fair;
      tables = s.tables.items;
      boards = s.boards.items;
      scripts = rows s.scripts.items;
    }) };
}

impl Setup {
    /// The setup of these parts. There is a script for each board, and each board names its table
    /// by the place in the list, from 0.
    pub fn of(
        memory: Vec<u32>,
        fair: bool,
        tables: Vec<Table>,
        boards: Vec<BoardSpec>,
        scripts: Vec<Vec<Access>>,
    ) -> Setup
        requires { WellFormed (record {
          memory = memory.items;
          fair = fair;
          tables = tables.items;
          boards = boards.items;
          scripts = rows scripts.items;
        }) }
        ensures { result
            ≡ record {
              memory = memory.items;
              fair = fair;
              tables = tables.items;
              boards = boards.items;
              scripts = rows scripts.items;
            } }
    {
        Setup {
            memory,
            fair,
            tables,
            boards,
            scripts,
        }
    }

    /// The first words of memory, four for each line.
    pub fn memory(&self) -> &[u32]
        ensures memory { result.now ≡ self.now.memory }
        ensures sound { WellFormed self.now }
    {
        &self.memory
    }

    /// Whether arbitration is fair: a board that won the bus is then passed over until every raised
    /// board was served.
    pub fn fair(&self) -> bool
        ensures fair { result ≡ self.now.fair }
        ensures sound { WellFormed self.now }
    {
        self.fair
    }

    /// The tables, in their order.
    pub fn tables(&self) -> &[Table]
        ensures tables { result.now ≡ self.now.tables }
        ensures sound { WellFormed self.now }
    {
        &self.tables
    }

    /// The boards, in order of their places.
    pub fn boards(&self) -> &[BoardSpec]
        ensures boards { result.now ≡ self.now.boards }
        ensures sound { WellFormed self.now }
    {
        &self.boards
    }

    /// The accesses of a board, in their order.
    pub fn script(&self, board: BoardNo) -> &[Access]
        requires low { 1 ≤ board }
        requires high { board ≤ length self.now.boards }
        ensures script { result.now ≡ slice_index_or self.now.scripts (board - 1) [] }
        ensures sound { WellFormed self.now }
    {
        &self.scripts[board.0 as usize - 1]
    }

    /// The number of accesses over all scripts.
    pub fn accesses(&self) -> u32
        ensures accesses { result ≡ access_count self.now }
        ensures sound { WellFormed self.now }
    {
        let mut accesses = 0;
        for script in &self.scripts {
            accesses += script.len() as u32;
        }
        accesses
    }
}
