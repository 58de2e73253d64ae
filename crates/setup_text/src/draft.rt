//! A setup while its text is being read.

ghost use Rattle.std.specs.Prelude.{◌≡◌, ◌<◌, ◌≤◌, ◌*◌, false, map, length, None, OnOk, OnErr, IfOk};
ghost use Rattle.bus_signals.specs.Accesses.{address_of};
ghost use Rattle.class_relation.specs.Rows.{rows};
ghost use Rattle.setup.specs.Setup.{BoardFits, access_count};
ghost use Rattle.setup_text.specs.Drafts.{empty_setup, with_fair, with_word, with_table, with_board, with_access, access_added, named, found_name, IsDraft};
ghost use Rattle.setup_text.specs.Reading.{has_number};

use crate::tables::Tables;
use bus_signals::Access;
use class_relation::Table;
use no_memory::NoMemory;
use setup::Setup;
use std::alloc::Global;
use std::marker::Model;
use table_check::BoardSpec;

/// The parts of a setup read so far. Contracts see it as a setup, which may have no boards yet.
#[derive(Drop)]
pub struct Draft {
    alloc: Global,
    memory: Vec<u32>,
    fair: bool,
    tables: Tables,
    boards: Vec<BoardSpec>,
    scripts: Vec<Vec<Access>>,
    accesses: u32,
}

impl Model for Draft {
    ghost use Rattle.std.specs.Prelude.{◌≡◌};
    ghost use Rattle.class_relation.specs.Rows.{rows};
    ghost use Rattle.setup.specs.Setup.{Setup, access_count};
    ghost use Rattle.setup_text.specs.Drafts.{IsDraft};

    ghost Value = { Setup };

    ghost view = { λ d. record {
      memory = d.memory.items;
      fair = d.fair;
      tables = d.tables;
      boards = d.boards.items;
      scripts = rows d.scripts.items;
    } };

    ghost invariant = { λ d. IsDraft (record {
      memory = d.memory.items;
      fair = d.fair;
      tables = d.tables;
      boards = d.boards.items;
      scripts = rows d.scripts.items;
    })
        × (d.accesses ≡ access_count (record {
          memory = d.memory.items;
          fair = d.fair;
          tables = d.tables;
          boards = d.boards.items;
          scripts = rows d.scripts.items;
        })) };
}

/// Appends an access to the last script.
fn add_access(scripts: &mut Vec<Vec<Access>>, access: Access) -> Result<(), NoMemory>
    requires { 1 ≤ length scripts.old.items }
    ensures ok { OnOk result
        (rows scripts.new.items ≡ access_added (rows scripts.old.items) access) }
    ensures err { OnErr result (rows scripts.new.items ≡ rows scripts.old.items) }
{
    let last = scripts.len() - 1;
    match scripts[last].push(access) {
        Ok(()) => Ok(()),
        Err(_) => Err(NoMemory),
    }
}

impl Draft {
    /// A setup with so many lines of memory, all 0, and nothing else.
    pub fn new(alloc: Global, lines: u32) -> Result<Draft, NoMemory>
        requires low { 1 ≤ lines }
        requires high { lines ≤ 4096 }
        ensures { IfOk result (λ draft. draft ≡ empty_setup lines) }
    {
        let Ok(memory) = vec![in alloc; 0; 4 * lines as usize] else {
            return Err(NoMemory);
        };
        Ok(Draft {
            alloc,
            memory,
            fair: false,
            tables: Tables::new(alloc),
            boards: Vec::new(alloc),
            scripts: Vec::new(alloc),
            accesses: 0,
        })
    }

    /// The number of words of memory.
    pub fn words(&self) -> u32
        ensures words { result ≡ length self.now.memory }
        ensures few { result ≤ 16384 }
    {
        self.memory.len() as u32
    }

    pub fn tables(&self) -> &Tables
        ensures { result.now ≡ self.now.tables }
    {
        &self.tables
    }

    pub fn boards(&self) -> &[BoardSpec]
        ensures boards { result.now ≡ self.now.boards }
        ensures sound { IsDraft self.now }
    {
        &self.boards
    }

    /// The number of accesses over all scripts.
    pub fn accesses(&self) -> u32
        ensures accesses { result ≡ access_count self.now }
    {
        self.accesses
    }

    /// Makes the arbitration fair.
    pub fn set_fair(&mut self)
        ensures { self.new ≡ with_fair self.old }
    {
        self.fair = true;
    }

    pub fn set_word(&mut self, addr: u32, value: u32)
        requires { addr < length self.old.memory }
        ensures { self.new ≡ with_word self.old addr value }
    {
        self.memory[addr as usize] = value;
    }

    pub fn push_table(&mut self, table: Table) -> Result<(), NoMemory>
        requires few { length self.old.tables < 16 }
        requires new { found_name (map named self.old.tables) table.name ≡ None }
        ensures { OnOk result (self.new ≡ with_table self.old table) }
    {
        self.tables.push(table)
    }

    pub fn push_board(&mut self, board: BoardSpec) -> Result<(), NoMemory>
        requires few { length self.old.boards < 16 }
        requires fits { BoardFits self.old board }
        requires new { has_number self.old.boards board.number ≡ false }
        ensures { OnOk result (self.new ≡ with_board self.old board) }
    {
        if self.scripts.reserve(1).is_err() || self.boards.push(board).is_err() {
            return Err(NoMemory);
        }
        self.scripts.push(Vec::new(self.alloc)).unwrap();
        Ok(())
    }

    pub fn push_access(&mut self, access: Access) -> Result<(), NoMemory>
        requires some { 1 ≤ length self.old.boards }
        requires few { access_count self.old < 100000 }
        requires within { address_of access < length self.old.memory }
        ensures { OnOk result (self.new ≡ with_access self.old access) }
    {
        add_access(&mut self.scripts, access)?;
        self.accesses += 1;
        Ok(())
    }

    /// The setup, once all of it has been read.
    pub fn finish(self) -> Setup
        requires { 1 ≤ length self.boards }
        ensures { result ≡ self }
    {
        Setup::of(
            self.memory,
            self.fair,
            self.tables.into_vec(),
            self.boards,
            self.scripts,
        )
    }
}
