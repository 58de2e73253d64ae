//! Turns of two seats, one after another and from two threads, and a lack of memory.

ghost use Rattle.std.specs.Prelude.{◌≡◌, ℕ, ◌<◌, ◌≤◌, ◌^◌, ⊤, [], ◌∷◌, ◌++◌, map, length, All, IfOk, IfErr, MatchBool};
ghost use Rattle.ruled_turn.specs.Seats.{seats_of, IsSeatOf};
ghost use Rattle.ruled_turn.specs.Entries.{GoesOn};

use crate::{BoardSeat, OpenFault, Ruled, Spent, Turned};
use std::alloc::{AllocError, Global};
use std::sync::Wait;
use std::test::Fail;
use std::thread;
use std::thread::Threads;

// Keeps the numbers of its turns, as many as it has room for, and answers whether it had room.
struct Diary {
    numbers: Vec<u32>,
}

impl Turned for Diary {
    type Base = ();

    type Entry = ();

    type Answer = bool;

    ghost base = { λ _. tt };

    ghost entries = { λ d. map (λ n. (n, tt)) d.numbers.items };

    ghost admits = { λ _ _. ⊤ };

    ghost replies = { λ _ before who answer after.
        MatchBool answer (after ≡ before ++ (who, tt) ∷ []) (after ≡ before) };

    fn step(&mut self, who: u32) -> bool {
        if self.numbers.len() == self.numbers.capacity() {
            return false;
        }
        self.numbers.push_reserved(who);
        true
    }

    fn length(&self) -> u64 {
        self.numbers.len() as u64
    }
}

fn open(alloc: Global, seats: u32) -> Result<(Ruled<Diary>, Vec<BoardSeat<Diary>>), Fail>
    requires { (0 < seats) × (seats ≤ 1024) }
    ensures seats { IfOk result (λ r. (seats_of r.0 ≡ seats) × (length r.1.items ≡ seats)) }
    ensures own { IfOk result
        (λ r. All (IsSeatOf ⟦<Diary as Turned>⟧.base ⟦<Diary as Turned>⟧.admits r.0) r.1.items) }
{
    let numbers = Vec::with_capacity(alloc, 8)?;
    match Ruled::new(alloc, Diary { numbers }, seats) {
        Ok(made) => Ok(made),
        Err(OpenFault { value }) => {
            let Diary { numbers } = value;
            drop(numbers);
            Err(AllocError)?
        }
    }
}

// A turn of the seat at a place.
fn turn_at<R: Wait>(
    rt: &R,
    ruled: &Ruled<Diary>,
    seats: &mut Vec<BoardSeat<Diary>>,
    at: usize,
) -> Result<bool, Spent>
    requires place { at < length seats.old.items }
    requires own { All (IsSeatOf ⟦<Diary as Turned>⟧.base ⟦<Diary as Turned>⟧.admits ruled.now)
        seats.old.items }
    ensures length { length seats.new.items ≡ length seats.old.items }
    ensures own { All (IsSeatOf ⟦<Diary as Turned>⟧.base ⟦<Diary as Turned>⟧.admits ruled.now)
        seats.new.items }
{
    ruled.turn(rt, &mut seats[at])
}

// Three turns of one seat.
fn turn_thrice<R: Wait>(rt: &R, ruled: &Ruled<Diary>, seat: &mut BoardSeat<Diary>)
    requires { IsSeatOf ⟦<Diary as Turned>⟧.base ⟦<Diary as Turned>⟧.admits ruled.now seat.old }
    ensures { IsSeatOf ⟦<Diary as Turned>⟧.base ⟦<Diary as Turned>⟧.admits ruled.now seat.new }
{
    let _ = ruled.turn(rt, seat);
    let _ = ruled.turn(rt, seat);
    let _ = ruled.turn(rt, seat);
}

// Three turns of each seat, from a thread of its own.
fn turn_all<R: Threads + Wait + Sync>(rt: &R, ruled: &Ruled<Diary>, seats: &mut [BoardSeat<Diary>])
    requires { All (IsSeatOf ⟦<Diary as Turned>⟧.base ⟦<Diary as Turned>⟧.admits ruled.now)
        seats.old }
    ensures length { length seats.new ≡ length seats.old }
    ensures own { All (IsSeatOf ⟦<Diary as Turned>⟧.base ⟦<Diary as Turned>⟧.admits ruled.now)
        seats.new }
{
    let threads = seats.len().max(1);
    thread::for_each_mut(rt, seats, threads, &|_, seat| turn_thrice(rt, ruled, seat));
}

// Two seats make their turns from two threads.
fn race<R: Threads + Wait + Sync>(
    rt: &R,
    alloc: Global,
    value: Diary,
) -> Result<Diary, OpenFault<Diary>>
    requires { length value.numbers.items < 2 ^ 49 }
    ensures ok { IfOk result
        (λ d. GoesOn (⟦<Diary as Turned>⟧.entries value) (⟦<Diary as Turned>⟧.entries d)) }
    ensures err { IfErr result (λ f. f.value ≡ value) }
{
    let (ruled, mut seats) = Ruled::new(alloc, value, 2)?;
    turn_all(rt, &ruled, seats.as_mut_slice());
    Ok(ruled.close(seats))
}

#[test]
fn each_turn_is_an_entry(rt: HostRuntime) -> Result<(), Fail> {
    let (ruled, mut seats) = open(rt.alloc(), 2)?;
    assert!(rt; seats[0].number() == 1 && seats[1].number() == 2);
    let first = turn_at(&rt, &ruled, &mut seats, 0);
    let second = turn_at(&rt, &ruled, &mut seats, 1);
    let third = turn_at(&rt, &ruled, &mut seats, 0);
    assert!(rt; first.is_ok_and(|had_room| had_room));
    assert!(rt; second.is_ok_and(|had_room| had_room));
    assert!(rt; third.is_ok_and(|had_room| had_room));
    assert!(rt; seats[0].turns() == 2 && seats[1].turns() == 1);
    let diary = ruled.close(seats);
    assert!(rt; diary.length() == 3);
    let Diary { numbers } = diary;
    assert!(rt; numbers.as_slice() == [1, 2, 1].as_slice());
    Ok(())
}

#[test]
fn threads_take_turns(rt: HostRuntime) -> Result<(), Fail> {
    let numbers = Vec::with_capacity(rt.alloc(), 8)?;
    match race(&rt, rt.alloc(), Diary { numbers }) {
        Ok(Diary { numbers }) => {
            let ones = numbers.iter().filter(|n| **n == 1).count();
            assert!(rt; numbers.len() == 6 && ones == 3);
            Ok(())
        }
        Err(OpenFault { value }) => {
            let Diary { numbers } = value;
            drop(numbers);
            Err(AllocError)?
        }
    }
}

// Passes where there is memory, and where any allocation of `Ruled::new` is refused.
#[test]
fn want_of_memory_hands_the_value_back(rt: HostRuntime) -> Result<(), Fail> {
    let mut numbers = Vec::with_capacity(rt.alloc(), 8)?;
    numbers.push_reserved(7);
    let back = match Ruled::new(rt.alloc(), Diary { numbers }, 2) {
        Ok((ruled, seats)) => ruled.close(seats),
        Err(OpenFault { value }) => value,
    };
    let Diary { numbers } = back;
    assert!(rt; numbers.as_slice() == [7].as_slice());
    Ok(())
}
