//! The small lists, and the room that an event takes.

use super::*;
use bus_signals::{BoardNo, Response};
use class_relation::SnoopAction;
use moesi_state::State;

#[test]
fn lists_keep_their_items(rt: HostRuntime) {
    let action = SnoopAction {
        result: State::S,
        response: Response {
            ch: true,
            di: false,
            sl: false,
        },
    };
    let answer = Answer {
        board: BoardNo(2),
        action,
    };
    let mut answers = Answers::new();
    answers.push(answer);
    assert_eq!(rt; answers.items().len(), 1);
    assert_eq!(rt; answers.items()[0], answer);
    let mut places = Places::new();
    places.push(BoardNo(1));
    places.push(BoardNo(4));
    assert_eq!(rt; places.items(), [BoardNo(1), BoardNo(4)].as_slice());
    let mut states = States::new();
    states.push((BoardNo(3), State::M));
    states.push((BoardNo(1), State::I));
    assert_eq!(rt;
        states.items(),
        [(BoardNo(3), State::M), (BoardNo(1), State::I)].as_slice()
    );
}

/// The largest journal, of 800,000 events, is to stay under 75,000,000 bytes.
#[test]
fn events_are_small(rt: HostRuntime) {
    assert!(rt; size_of::<Event>() <= 93);
}
