//! Three boards compete, one alone, and none; and three that are served in turn.

use super::*;
use bus_signals::BoardNo;
use std::test::*;

#[test]
fn the_highest_number_wins(rt: HostRuntime) -> Result<(), Fail> {
    let mut requests = Requests::new(vec![in rt.alloc(); 7, 10, 9]?, false);
    assert!(rt; requests.grant().is_none());
    requests.raise(BoardNo(1));
    requests.raise(BoardNo(2));
    requests.raise(BoardNo(3));
    let contest = requests.contest().ok_or("contest")?;
    assert_eq!(rt; contest.winner, BoardNo(2));
    let three = requests.grant().ok_or("three")?;
    assert_eq!(rt; three.winner, BoardNo(2));
    assert_eq!(rt; three.settled.lines, 10);
    assert_eq!(rt; three.settled.rounds, 3);
    assert!(rt; !requests.raised(BoardNo(2)));
    assert!(rt; requests.raised(BoardNo(3)));
    requests.lower(BoardNo(1));
    requests.lower(BoardNo(3));
    requests.raise(BoardNo(2));
    let one = requests.grant().ok_or("one")?;
    assert_eq!(rt; one.settled.lines, 10);
    assert_eq!(rt; one.settled.rounds, 0);
    assert!(rt; requests.grant().is_none());
    Ok(())
}

#[test]
fn a_served_board_is_passed_over(rt: HostRuntime) -> Result<(), Fail> {
    let mut requests = Requests::new(vec![in rt.alloc(); 640, 576, 511]?, true);
    requests.raise(BoardNo(1));
    requests.raise(BoardNo(2));
    requests.raise(BoardNo(3));
    assert!(rt; !requests.served(BoardNo(1)));
    for (winner, lines, rounds) in [(1, 640, 3), (2, 576, 2), (3, 511, 0), (1, 640, 3)] {
        let grant = requests.grant().ok_or("nobody competes")?;
        assert_eq!(rt; grant.winner, BoardNo(winner));
        assert_eq!(rt; grant.settled.lines, lines);
        assert_eq!(rt; grant.settled.rounds, rounds);
        assert!(rt; requests.served(grant.winner));
        requests.raise(grant.winner);
    }
    let next = requests.contest().ok_or("nobody competes")?;
    assert_eq!(rt; next.winner, BoardNo(2));
    Ok(())
}
