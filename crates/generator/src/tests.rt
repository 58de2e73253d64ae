//! Known parts of generated setups and schedules. The expected values were worked out apart from
//! this program, by the rule of the generator.

ghost use Rattle.std.specs.Prelude.{◌≤◌, length};

use super::*;
use bus_signals::{Access, Addr, BoardNo};
use setup::Setup;
use std::test::Fail;
use table_check::{BoardSpec, Choose, Shape};

fn access_at(setup: &Setup, board: u8, index: usize) -> Option<Access>
    requires low { 1 ≤ board }
    requires high { board ≤ length setup.now.boards }
{
    setup.script(BoardNo(board)).get(index).copied()
}

#[test]
fn the_setup_of_1(rt: HostRuntime) -> Result<(), Fail> {
    let setup = match make_setup(rt.alloc(), 1) {
        Ok(setup) => setup,
        Err(_) => return Err("memory".into()),
    };
    assert_eq!(rt; setup.memory().len(), 256);
    assert_eq!(rt; setup.tables().len(), 5);
    assert_eq!(rt; setup.accesses(), 100_000);
    let first = access_at(&setup, 1, 0);
    assert_eq!(rt; first, Some(Access::Read(Addr(238))));
    let third = access_at(&setup, 3, 0);
    assert_eq!(rt; third, Some(Access::Write(Addr(192), 3_688_506_836)));
    let eighth = access_at(&setup, 8, 0);
    assert_eq!(rt; eighth, Some(Access::Flush(Addr(87))));
    let eighteenth = access_at(&setup, 2, 1);
    assert_eq!(rt; eighteenth, Some(Access::Pass(Addr(2))));
    let last = access_at(&setup, 16, 6_249);
    assert_eq!(rt; last, Some(Access::Read(Addr(10))));
    Ok(())
}

#[test]
fn the_boards_of_the_largest_number(rt: HostRuntime) -> Result<(), Fail> {
    let setup = match make_setup(rt.alloc(), 18_446_744_073_709_551_615) {
        Ok(setup) => setup,
        Err(_) => return Err("memory".into()),
    };
    let fourth = BoardSpec {
        number: 60,
        table: 3,
        shape: Shape::Plain,
        choose: Choose::Seed(3),
    };
    let sixth = BoardSpec {
        number: 90,
        table: 0,
        shape: Shape::Cached { sets: 4, ways: 2 },
        choose: Choose::Seed(5),
    };
    assert_eq!(rt; setup.boards().get(3), Some(&fourth));
    assert_eq!(rt; setup.boards().get(5), Some(&sixth));
    Ok(())
}

#[test]
fn the_schedule_of_7(rt: HostRuntime) {
    let mut turns = SeededTurns::new(7, 3, 1);
    let known = [3, 3, 2, 1, 1, 1, 3, 2, 3, 1, 1, 2, 3, 2, 2, 1];
    for board in known {
        assert_eq!(rt; turns.next_turn(), Some(board));
    }
    assert_eq!(rt; turns.next_turn(), None);
}
