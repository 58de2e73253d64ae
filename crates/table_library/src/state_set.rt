//! Sets of states.

ghost use Rattle.std.specs.Prelude.{◌≡◌, List, filter};
ghost use Rattle.moesi_state.specs.States.{all_states};
ghost use Rattle.table_check.specs.Marks.{mark_of};
ghost use Rattle.table_library.specs.StateSets.{is_in};

use moesi_state::State;
use std::marker::Model;

/// A set of states: a mark for each state, in order. Contracts see it as the list of its states.
#[derive(Drop)]
pub(crate) struct StateSet {
    marks: [bool; 5],
}

impl Model for StateSet {
    ghost use Rattle.std.specs.Prelude.{List, filter};
    ghost use Rattle.moesi_state.specs.declared.State.{State};
    ghost use Rattle.moesi_state.specs.States.{all_states};
    ghost use Rattle.table_check.specs.Marks.{mark_of};

    ghost Value = { List State };

    ghost view = { λ s. filter (mark_of s.marks) all_states };
}

impl StateSet {
    /// The set of the states with a mark.
    pub(crate) fn marked(marks: [bool; 5]) -> StateSet
        ensures { result ≡ filter (mark_of marks) all_states }
    {
        StateSet { marks }
    }

    /// The set of all states.
    pub(crate) fn all() -> StateSet
        ensures { result ≡ all_states }
    {
        StateSet { marks: [true; 5] }
    }

    /// Whether a state is in the set.
    pub(crate) fn has(&self, state: State) -> bool
        ensures member { result ≡ is_in self.now state }
        ensures ordered { self.now ≡ filter (is_in self.now) all_states }
    {
        self.marks[state as usize]
    }
}
