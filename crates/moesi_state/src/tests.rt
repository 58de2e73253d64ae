//! What the five states mean, and how outcomes settle.

use super::*;

#[test]
fn states_say_what_they_keep(rt: HostRuntime) {
    let states = [
        (State::M, true, true, true),
        (State::O, true, false, true),
        (State::E, false, true, true),
        (State::S, false, false, true),
        (State::I, false, false, false),
    ];
    for (state, owns, alone, holds) in states {
        assert_eq!(rt; state.owns(), owns);
        assert_eq!(rt; state.alone(), alone);
        assert_eq!(rt; state.holds(), holds);
    }
}

#[test]
fn outcomes_settle(rt: HostRuntime) {
    let either = Outcome::OnHit {
        hit: State::S,
        miss: State::E,
    };
    assert_eq!(rt; either.settle(true), State::S);
    assert_eq!(rt; either.settle(false), State::E);
    assert_eq!(rt; Outcome::Fixed(State::M).settle(true), State::M);
}
