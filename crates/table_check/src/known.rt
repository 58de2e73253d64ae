//! The known tables, judged.

ghost use Rattle.std.specs.Prelude.{◌≡◌, [], ◌∷◌, map};
ghost use Rattle.bus_signals.specs.declared.BusEvent.TheVariants.{Rd, Bwr};
ghost use Rattle.moesi_state.specs.declared.State.TheVariants.{M, S, I};
ghost use Rattle.class_relation.specs.declared.Cell.{Cell};
ghost use Rattle.table_check.specs.declared.verdict.CellFault.TheVariants.{NotPermitted, Missing};
ghost use Rattle.table_check.specs.Accepted.{InClass, faults};
ghost use Rattle.table_check.specs.KnownTables.{uncached, copy_back, copy_back_update, write_through, whole_class, with_quiet, without_owned, owned_cells};

/// The tables of well-known protocols and that of the whole class are accepted. A copy-back table
/// is refused where a shared copy hides from a read, where it answers an event that never comes,
/// and where it has no cells for a state that it reaches.
pub fn known_tables_are_judged()
    ensures uncached { InClass uncached }
    ensures copy_back { InClass copy_back }
    ensures copy_back_update { InClass copy_back_update }
    ensures write_through { InClass write_through }
    ensures whole_class { InClass whole_class }
    ensures hidden_copy { faults (with_quiet S Rd S) ≡ NotPermitted (Cell.Answer S Rd) 1 ∷ [] }
    ensures impossible_answer { faults (with_quiet M Bwr I)
        ≡ NotPermitted (Cell.Answer M Bwr) 1 ∷ [] }
    ensures without_owned { faults without_owned ≡ map Missing owned_cells }
{}
