//! A turn of a board.

ghost use Rattle.std.specs.Prelude.{◌≡◌, ◌≤◌, true, false, length};
ghost use Rattle.bus_model.specs.Events.{Event};
ghost use Rattle.bus_model.specs.Configuration.{is_connected};
ghost use Rattle.bus_model.specs.Turns.{Did};
ghost use Rattle.bus_model.specs.Runs.{Run};
ghost use Rattle.bus_model.specs.Entries.{entries, Legal};
ghost use Rattle.bus_model.specs.Fairness.{GrantsAreFair};
ghost use Rattle.bus_model.specs.Soundness.{Sound};
ghost use Rattle.backplane.specs.Machine.{configuration, IsBoard, MayHappen};
ghost use Rattle.backplane.specs.Moves.{told, moved, turn_of};
ghost use Rattle.backplane.specs.Needs.{needed, reply_count};
ghost use Rattle.backplane.specs.Plans.{planned};

use crate::machine::Machine;
use crate::moved::Moved;
use crate::plan::Plan;
use bus_signals::BoardNo;

impl Machine {
    /// What a board that is not connected does in its turn.
    fn plan(&self, board: BoardNo) -> Plan
        requires board { IsBoard self.now board }
        requires free { is_connected (configuration self.now).phase board ≡ false }
        ensures { planned self.now.setup (configuration self.now) board result
            ≡ turn_of self.now board }
    {
        match self.present(board) {
            None => Plan::Finish,
            Some(access) => self.parts.plan(board, &access),
        }
    }

    /// Carries out a plan, if it is an event.
    fn go(&mut self, board: BoardNo, plan: Plan) -> Moved
        requires { (event : Event)
            → planned self.old.setup (configuration self.old) board plan ≡ Did event
            → MayHappen self.old event }
        ensures told { result ≡ told (planned self.old.setup (configuration self.old) board plan) }
        ensures machine { self.new
            ≡ moved self.old (planned self.old.setup (configuration self.old) board plan) }
    {
        match plan {
            Plan::Finish => Moved::Finished,
            Plan::Wait(why) => Moved::Waits(why),
            Plan::Settle {
                before,
                after,
                done,
            } => {
                self.do_local(board, before, after, done);
                Moved::Did
            }
            Plan::Drop { line, before } => {
                self.do_drop(board, line, before);
                Moved::Did
            }
            Plan::Connect {
                line,
                event,
                outcome,
            } => {
                self.do_connect_as_picked(board, line, event, outcome);
                Moved::Did
            }
            Plan::Raise => {
                self.do_raise(board);
                Moved::Did
            }
            Plan::Grant {
                winner,
                lines,
                rounds,
            } => {
                self.do_grant(board, winner, lines, rounds);
                Moved::Did
            }
        }
    }

    /// A turn of a board: it does one event, or answers why it waits, or that its script is at
    /// its end.
    pub fn advance(&mut self, board: BoardNo) -> Moved
        requires { IsBoard self.old board }
        ensures told { result ≡ told (turn_of self.old board) }
        ensures machine { self.new ≡ moved self.old (turn_of self.old board) }
        ensures step { (event : Event) → turn_of self.old board ≡ Did event
            → MayHappen self.old event }
        ensures run { Run self.new.setup self.new.journal (configuration self.new) }
        ensures sound { Sound self.new.setup self.new.journal (configuration self.new) }
        ensures legal { Legal self.new.setup.memory (entries self.new.journal) }
        ensures fair { self.new.setup.fair ≡ true
            → GrantsAreFair self.new.journal (configuration self.new).boards }
        ensures events { length self.new.journal ≤ (needed self.new.setup).events }
        ensures replies { reply_count self.new ≤ (needed self.new.setup).replies }
        ensures rows { length (configuration self.new).rows ≤ (needed self.new.setup).frames }
    {
        let moved = self.turn(board);
        let _journal = self.journal(); // gives Sound and Legal to the prover
        self.within_need();
        moved
    }

    /// `advance` without the clauses that follow from soundness.
    fn turn(&mut self, board: BoardNo) -> Moved
        requires { IsBoard self.old board }
        ensures told { result ≡ told (turn_of self.old board) }
        ensures machine { self.new ≡ moved self.old (turn_of self.old board) }
        ensures step { (event : Event) → turn_of self.old board ≡ Did event
            → MayHappen self.old event }
    {
        if self.parts.phase.is_connected(board) {
            self.do_data();
            return Moved::Did;
        }
        let plan = self.plan(board);
        self.go(board, plan)
    }
}
