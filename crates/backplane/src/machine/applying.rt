//! Applying a given event: it is done if it may happen, and refused if it may not.

ghost use Rattle.std.specs.Prelude.{true, ◌≡◌, ◌↔◌, ◌≤◌, IsOk, IsSome, IsTrue, OnErr, OnOk, length};
ghost use Rattle.bus_model.specs.Configuration.{present_access};
ghost use Rattle.bus_model.specs.Events.{DataPhase};
ghost use Rattle.bus_model.specs.Runs.{Run};
ghost use Rattle.bus_model.specs.Entries.{entries, Legal};
ghost use Rattle.bus_model.specs.Fairness.{GrantsAreFair};
ghost use Rattle.bus_model.specs.Soundness.{Sound};
ghost use Rattle.backplane.specs.Machine.{IsBoard, MayHappen, configuration, happened};
ghost use Rattle.backplane.specs.Needs.{needed, reply_count};

use crate::machine::Machine;
use crate::permits::{
    permits_connect, permits_data, permits_drop, permits_grant, permits_local, permits_raise,
};
use crate::phase::Phase;
use bus_signals::{Access, BoardNo};
use journal::{Carried, Event};

/// The event is no step from the present configuration.
#[derive(Clone, Copy, Debug, PartialEq, Eq)]
pub struct NotARun;

impl Machine {
    /// The access that a board is to do next. A board that the machine does not have has none.
    fn next(&self, board: BoardNo) -> Option<Access>
        ensures access { result
            ≡ present_access self.now.setup (configuration self.now).boards board }
        ensures board { IsSome result → IsBoard self.now board }
    {
        if board.0 == 0 || board.0 > self.parts.rack.boards() {
            return None;
        }
        self.present(board)
    }

    /// Whether the data of a transaction may move as this data phase says.
    fn may_carry(&self, carried: &Carried) -> bool
        ensures { IsTrue result ↔ MayHappen self.now (DataPhase carried.now) }
    {
        match &self.parts.phase {
            Phase::Connected(connected) => {
                let access = self.next(connected.master);
                permits_data(&self.parts, connected, access, carried)
            }
            _ => false,
        }
    }

    /// Whether an event may happen.
    fn may_happen(&self, event: &Event) -> bool
        ensures { IsTrue result ↔ MayHappen self.now event.now }
    {
        match event {
            Event::Local {
                board,
                before,
                after,
                done,
            } => match self.next(*board) {
                Some(access) => permits_local(&self.parts, &access, *board, *before, *after, done),
                None => false,
            },
            Event::Drop {
                board,
                line,
                before,
            } => match self.next(*board) {
                Some(access) => permits_drop(&self.parts, &access, *board, *line, *before),
                None => false,
            },
            Event::Raise { board } => match self.next(*board) {
                Some(access) => permits_raise(&self.parts, &access, *board),
                None => false,
            },
            Event::Grant {
                by,
                winner,
                lines,
                rounds,
            } => permits_grant(&self.parts, *by, *winner, *lines, *rounds),
            Event::Connect(connected) => match self.next(connected.master) {
                Some(access) => permits_connect(&self.parts, &access, connected),
                None => false,
            },
            Event::DataPhase(carried) => self.may_carry(carried),
        }
    }

    /// Does an event that may happen.
    fn happen(&mut self, event: &Event)
        requires { MayHappen self.old event.now }
        ensures { self.new ≡ happened self.old event.now }
    {
        match event {
            Event::Local {
                board,
                before,
                after,
                done,
            } => self.do_local(*board, *before, *after, *done),
            Event::Drop {
                board,
                line,
                before,
            } => self.do_drop(*board, *line, *before),
            Event::Raise { board } => self.do_raise(*board),
            Event::Grant {
                by,
                winner,
                lines,
                rounds,
            } => self.do_grant(*by, *winner, *lines, *rounds),
            Event::Connect(connected) => self.do_connect(connected.copy()),
            Event::DataPhase(_) => self.do_data(),
        }
    }

    /// Does exactly this event, where it is a step from the present configuration, with whatever
    /// alternatives it takes. The event may name any board and line. A refused event changes
    /// nothing.
    pub fn apply(&mut self, event: &Event) -> Result<(), NotARun>
        ensures exact { IsOk result ↔ MayHappen self.old event.now }
        ensures applied { OnOk result (self.new ≡ happened self.old event.now) }
        ensures same { OnErr result (self.new ≡ self.old) }
        ensures run { Run self.new.setup self.new.journal (configuration self.new) }
        ensures sound { Sound self.new.setup self.new.journal (configuration self.new) }
        ensures legal { Legal self.new.setup.memory (entries self.new.journal) }
        ensures fair { self.new.setup.fair ≡ true
            → GrantsAreFair self.new.journal (configuration self.new).boards }
        ensures events { length self.new.journal ≤ (needed self.new.setup).events }
        ensures replies { reply_count self.new ≤ (needed self.new.setup).replies }
        ensures rows { length (configuration self.new).rows ≤ (needed self.new.setup).frames }
    {
        let applied = self.attempt(event);
        let _journal = self.journal(); // gives Sound and Legal to the prover
        self.within_need();
        applied
    }

    /// `apply` without the clauses that follow from soundness.
    fn attempt(&mut self, event: &Event) -> Result<(), NotARun>
        ensures exact { IsOk result ↔ MayHappen self.old event.now }
        ensures applied { OnOk result (self.new ≡ happened self.old event.now) }
        ensures same { OnErr result (self.new ≡ self.old) }
    {
        if !self.may_happen(event) {
            return Err(NotARun);
        }
        self.happen(event);
        Ok(())
    }
}
