//! The numbers of states.

ghost use Rattle.std.specs.Prelude.{◌≡◌};
ghost use Rattle.moesi_state.specs.States.{state_number};

use moesi_state::State;

/// The number of a state in its order, from 0.
pub fn state_number(state: State) -> usize
    ensures { result ≡ state_number state }
{
    state as usize
}
