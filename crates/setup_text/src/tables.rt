//! The tables of a text, in order, and their names.

ghost use Rattle.std.specs.Prelude.{◌≡◌, ◌||◌, ◌<◌, ◌≤◌, ◌++◌, ◌∷◌, [], map, length, None, IfSome, OnOk, OnErr};
ghost use Rattle.moesi_state.specs.declared.State.TheVariants.{M, O, E, S};
ghost use Rattle.table_check.specs.Reached.{is_reached};
ghost use Rattle.setup_text.specs.Drafts.{stays_invalid, named, found_name, AreTables, IsKnown};

use crate::names::Names;
use class_relation::Table;
use moesi_state::State;
use no_memory::NoMemory;
use std::alloc::Global;
use std::marker::Model;
use table_check::reaches;

/// At most 16 tables, whose names differ. Contracts see them as a list.
#[derive(Drop)]
pub struct Tables {
    tables: Vec<Table>,
    names: Names,
}

impl Model for Tables {
    ghost use Rattle.std.specs.Prelude.{◌≡◌, List, map};
    ghost use Rattle.class_relation.specs.Tables.{Table};
    ghost use Rattle.setup_text.specs.Drafts.{AreTables, named};

    ghost Value = { List Table };

    ghost view = { λ t. t.tables.items };

    ghost invariant = { λ t. AreTables t.tables.items × (t.names ≡ map named t.tables.items) };
}

#[tactic(auto, using(crate::proofs::Drafts::reach_test))]
fn can_reach(table: &Table, state: State) -> bool
    ensures { result ≡ is_reached table.now state }
{
    reaches(table, state)
}

/// Whether a table reaches a state other than I.
fn is_cached(table: &Table) -> bool
    ensures { result
        ≡ (is_reached table.now M || is_reached table.now O || is_reached table.now E
        || is_reached table.now S) }
{
    can_reach(table, State::M)
        || can_reach(table, State::O)
        || can_reach(table, State::E)
        || can_reach(table, State::S)
}

/// Whether a table reaches no state but I.
fn stays_invalid(table: &Table) -> bool
    ensures { result ≡ stays_invalid table.now }
{
    !is_cached(table)
}

impl Tables {
    pub fn new(alloc: Global) -> Tables
        ensures { result ≡ [] }
    {
        Tables {
            tables: Vec::new(alloc),
            names: Names::new(alloc),
        }
    }

    pub fn len(&self) -> usize
        ensures len { result ≡ length self.now }
        ensures few { length self.now ≤ 16 }
        ensures sound { AreTables self.now }
    {
        self.tables.len()
    }

    /// The place of the table of a name, from 0, and whether it reaches no state but I.
    pub fn find(&self, name: &[u8]) -> Option<(u32, bool)>
        ensures found { result ≡ found_name (map named self.now) name.now }
        ensures known { IfSome result (IsKnown self.now) }
    {
        let (place, stays_invalid) = self.names.find(name)?;
        Some((place as u32, stays_invalid))
    }

    pub fn push(&mut self, table: Table) -> Result<(), NoMemory>
        requires few { length self.old < 16 }
        requires new { found_name (map named self.old) table.name ≡ None }
        ensures ok { OnOk result (self.new ≡ self.old ++ table ∷ []) }
        ensures err { OnErr result (self.new ≡ self.old) }
    {
        let Ok(()) = self.tables.reserve(1) else {
            return Err(NoMemory);
        };
        self.names
            .push(table.name().bytes(), stays_invalid(&table))?;
        self.tables.push(table).unwrap();
        Ok(())
    }

    /// The tables as a list.
    pub fn into_vec(self) -> Vec<Table>
        ensures tables { result.items ≡ self }
        ensures sound { AreTables self }
    {
        self.tables
    }
}
