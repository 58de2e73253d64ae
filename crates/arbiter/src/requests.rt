//! The requests of the boards for the bus.

ghost use Rattle.std.specs.Prelude.{◌≡◌, ◌==◌, not, ◌&&◌, ◌↔◌, ◌≤◌, ◌<◌, ◌+◌, ◌++◌, ◌∷◌, [], true, false, Some, None, length, take, IfSome, IfNone, IsNone, if◌then◌else◌};
ghost use Rattle.bus_model.specs.Settling.{settled_lines, settled_rounds, highest};
ghost use Rattle.arbiter.specs.Contests.{IsContest};
ghost use Rattle.arbiter.specs.Raised.{marked_numbers, winner_from, waiting as waiting_of, does_any_wait, contenders, competitors, winner_with, IsBoard, has_raised, was_served, does_compete, number_at, nobody_raised, with_request, marks_at_grant, with_mark, won_by};

use crate::contest::{Settled, settle};
use crate::steps::Steps;
use bus_signals::BoardNo;
use std::marker::{Brand, Model};
use std::sync::ledger::{Blank, Ledger};

/// Who has won the bus, and how the lines settled.
#[derive(Clone, Copy, Debug, PartialEq, Eq)]
pub struct Grant {
    pub winner: BoardNo,
    pub settled: Settled,
}

/// The requests of 1 to 16 boards. Contracts see the boards' numbers, whether the bus is arbitrated
/// fairly, and which of the boards have raised a request and which were served.
#[derive(Drop)]
pub struct Requests {
    numbers: Vec<u16>,
    fair: bool,
    raised: [bool; 16],
    served: [bool; 16],
}

impl Model for Requests {
    ghost use Rattle.arbiter.specs.Contests.{IsContest};
    ghost use Rattle.arbiter.specs.Raised.{Requests};

    ghost Value = { Requests };

    ghost view = { λ r. record {
      numbers = r.numbers.items;
      fair = r.fair;
      raised = r.raised;
      served = r.served;
    } };

    ghost invariant = { λ r. IsContest r.numbers.items };
}

/// Adds a number after the first ones of a list, if it competes, and returns how many it then has.
fn add_if(competes: bool, numbers: &mut [u16; 16], count: usize, number: u16) -> usize
    requires { count < 16 }
    ensures numbers { take result numbers.new
        ≡ take count numbers.old ++ (if competes then number ∷ [] else []) }
    ensures within { result ≤ count + 1 }
    ensures long { length (take count numbers.old) ≡ count
        → length (take result numbers.new) ≡ result }
{
    if !competes {
        return count;
    }
    numbers[count] = number;
    count + 1
}

/// The numbers of the boards that are marked, and how many they are.
fn gather(numbers: &[u16], marks: &[bool; 16]) -> ([u16; 16], usize)
    requires { length numbers.now ≤ 16 }
    ensures numbers { take result.1 result.0 ≡ marked_numbers numbers.now marks.now }
    ensures within { result.1 ≤ 16 }
    ensures long { length (take result.1 result.0) ≡ result.1 }
{
    let mut gathered = [0; 16];
    let mut count = 0;
    for (i, number) in numbers.iter().enumerate() {
        count = add_if(marks[i], &mut gathered, count, *number);
    }
    (gathered, count)
}

/// Whether a board competes with this number.
fn wins(competes: bool, own: u16, number: u16) -> bool
    ensures { result ≡ (competes && (own == number)) }
{
    competes && own == number
}

/// The index of the first board that is marked and has this number.
fn index_of(numbers: &[u16], marks: &[bool; 16], number: u16) -> Option<usize>
    requires { length numbers.now ≤ 16 }
    ensures found { IfSome result
        (λ i. winner_from 1 numbers.now marks.now number ≡ Some (i + 1)) }
    ensures none { IfNone result (winner_from 1 numbers.now marks.now number ≡ None) }
    ensures within { IfSome result (λ i. i < length numbers.now) }
{
    for (i, own) in numbers.iter().enumerate() {
        if wins(marks[i], *own, number) {
            return Some(i);
        }
    }
    None
}

/// Whether a board waits to be served.
fn waits(raised: bool, served: bool) -> bool
    ensures { result ≡ (raised && not served) }
{
    raised && !served
}

/// Which boards wait to be served: they have raised a request, and were not served.
fn waiting(raised: &[bool; 16], served: &[bool; 16]) -> [bool; 16]
    ensures { result ≡ waiting_of raised.now served.now }
{
    let mut waiting = *raised;
    for (i, mark) in served.iter().enumerate() {
        waiting[i] = waits(raised[i], *mark);
    }
    waiting
}

/// Settles a contest without counting the looks.
fn settled<L: Ledger>(blank: Blank, numbers: &[u16]) -> Settled
    requires name { blank.name ≡ L.name }
    requires parts { blank.parts ≡ L.parts }
    requires some { 0 < blank.parts }
    requires contest { IsContest numbers.now }
    ensures lines { result.lines ≡ settled_lines numbers.now }
    ensures rounds { result.rounds ≡ settled_rounds numbers.now }
    ensures highest { result.lines ≡ highest numbers.now }
{
    settle(numbers, &mut Steps::<L>::new(blank))
}

impl Requests {
    /// Nobody has raised a request, and nobody was served. The first number is that of board 1.
    pub fn new(numbers: Vec<u16>, fair: bool) -> Requests
        requires { IsContest numbers.items }
        ensures { result ≡ nobody_raised numbers.items fair }
    {
        Requests {
            numbers,
            fair,
            raised: [false; 16],
            served: [false; 16],
        }
    }

    /// Raises the request of a board.
    pub fn raise(&mut self, board: BoardNo)
        requires { IsBoard self.old board }
        ensures { self.new ≡ with_request self.old board true }
    {
        self.raised[board.0 as usize - 1] = true;
    }

    /// Lowers the request of a board.
    pub fn lower(&mut self, board: BoardNo)
        requires { IsBoard self.old board }
        ensures { self.new ≡ with_request self.old board false }
    {
        self.raised[board.0 as usize - 1] = false;
    }

    /// Whether a board has raised a request.
    pub fn raised(&self, board: BoardNo) -> bool
        requires { IsBoard self.now board }
        ensures raised { result ≡ has_raised self.now board }
        ensures contest { IsContest self.now.numbers }
    {
        self.raised[board.0 as usize - 1]
    }

    /// Whether a board was served.
    pub fn served(&self, board: BoardNo) -> bool
        requires { IsBoard self.now board }
        ensures served { result ≡ was_served self.now board }
        ensures contest { IsContest self.now.numbers }
    {
        self.served[board.0 as usize - 1]
    }

    /// Whether any board waits to be served.
    fn does_any_wait(&self) -> bool
        ensures { result ≡ does_any_wait self.now }
    {
        let waiting = waiting(&self.raised, &self.served);
        let (_, count) = gather(&self.numbers, &waiting);
        count > 0
    }

    /// Which boards compete: those that have raised a request, or fairly, if any board waits to be
    /// served, those that do.
    fn contenders(&self) -> [bool; 16]
        ensures { result ≡ contenders self.now }
    {
        if self.fair && self.does_any_wait() {
            return waiting(&self.raised, &self.served);
        }
        self.raised
    }

    /// Whether a board competes for the bus.
    pub fn competes(&self, board: BoardNo) -> bool
        requires { IsBoard self.now board }
        ensures competes { result ≡ does_compete self.now board }
        ensures contest { IsContest self.now.numbers }
    {
        let _ = &self.numbers;
        let contenders = self.contenders();
        contenders[board.0 as usize - 1]
    }

    /// The grant that the lines settle to: the competing board with the highest number. `None`
    /// where nobody competes.
    pub fn contest(&self) -> Option<Grant>
        ensures none { IsNone result ↔ (competitors self.now ≡ []) }
        ensures board { IfSome result (λ grant. IsBoard self.now grant.winner) }
        ensures competes { IfSome result (λ grant. does_compete self.now grant.winner ≡ true) }
        ensures highest { IfSome result
            (λ grant. number_at self.now grant.winner ≡ highest (competitors self.now)) }
        ensures first { IfSome result
            (λ grant. winner_with self.now (highest (competitors self.now)) ≡ Some grant.winner) }
        ensures lines { IfSome result
            (λ grant. grant.settled.lines ≡ settled_lines (competitors self.now)) }
        ensures shown { IfSome result
            (λ grant. grant.settled.lines ≡ number_at self.now grant.winner) }
        ensures rounds { IfSome result
            (λ grant. grant.settled.rounds ≡ settled_rounds (competitors self.now)) }
    {
        let contenders = self.contenders();
        let (numbers, count) = gather(&self.numbers, &contenders);
        if count == 0 {
            return None;
        }
        let settled = settled::<Brand>(Blank::new(1), &numbers[..count]);
        let Some(index) = index_of(&self.numbers, &contenders, settled.lines) else {
            return None;
        };
        Some(Grant {
            winner: BoardNo(index as u8 + 1),
            settled,
        })
    }

    /// The marks of the served boards at a grant, before the winner gets one: where no board waits
    /// to be served, all are cleared.
    fn marks_at_grant(&self) -> [bool; 16]
        ensures { result ≡ marks_at_grant self.now }
    {
        if self.does_any_wait() {
            return self.served;
        }
        [false; 16]
    }

    /// Marks a winner as served, if arbitration is fair.
    fn mark(&mut self, winner: BoardNo)
        requires { IsBoard self.old winner }
        ensures { self.new ≡ with_mark self.old winner }
    {
        if !self.fair {
            return;
        }
        let mut served = self.marks_at_grant();
        served[winner.0 as usize - 1] = true;
        self.served = served;
    }

    /// The bus is given to a winner: its request is lowered, and it is marked as served if
    /// arbitration is fair.
    pub fn give(&mut self, winner: BoardNo)
        requires { IsBoard self.old winner }
        ensures { self.new ≡ won_by self.old winner }
    {
        self.mark(winner);
        self.lower(winner);
    }

    /// Grants the bus to the competing board with the highest number, lowers its request, and marks
    /// it as served if arbitration is fair. `None` where nobody competes.
    pub fn grant(&mut self) -> Option<Grant>
        ensures none { IsNone result ↔ (competitors self.old ≡ []) }
        ensures same { IfNone result (self.new ≡ self.old) }
        ensures won { IfSome result (λ grant. self.new ≡ won_by self.old grant.winner) }
        ensures board { IfSome result (λ grant. IsBoard self.old grant.winner) }
        ensures competes { IfSome result (λ grant. does_compete self.old grant.winner ≡ true) }
        ensures highest { IfSome result
            (λ grant. number_at self.old grant.winner ≡ highest (competitors self.old)) }
        ensures first { IfSome result
            (λ grant. winner_with self.old (highest (competitors self.old)) ≡ Some grant.winner) }
        ensures lines { IfSome result
            (λ grant. grant.settled.lines ≡ settled_lines (competitors self.old)) }
        ensures shown { IfSome result
            (λ grant. grant.settled.lines ≡ number_at self.old grant.winner) }
        ensures rounds { IfSome result
            (λ grant. grant.settled.rounds ≡ settled_rounds (competitors self.old)) }
    {
        let Some(grant) = self.contest() else {
            return None;
        };
        self.give(grant.winner);
        Some(grant)
    }
}
