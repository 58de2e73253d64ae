//! The audit: turns of a schedule and then rounds, until the first harm or the end of every script.

ghost use Rattle.std.specs.Prelude.{◌≡◌, ◌*◌, ℕ, IfOk, OnOk, None, false, map};
ghost use Rattle.std.specs.List.{AllByRecursion};
ghost use Rattle.bus_model.specs.Places.{repeated};
ghost use Rattle.bus_model.specs.Setup.{AllInClass, BoardSpec, access_count, board_places};
ghost use Rattle.bus_model.specs.Configuration.{fresh, lines_of_words, opening, opening_arbitration};
ghost use Rattle.bus_model.specs.Turns.{Did, played};
ghost use Rattle.audit.specs.Parts.{arbitration_of, shown};
ghost use Rattle.audit.specs.Turns.{any_turn};
ghost use Rattle.audit.specs.First.{IsPlaceOf, audited, found_or};
ghost use Rattle.audit.specs.Playing.{audit_turn, audit_turns, led_to, unbegun, with_event};
ghost use Rattle.audit.specs.Auditor.{Stands, audit_so_far};

use crate::arbitration::Arbitration;
use crate::audited::Audit;
use crate::copies::Held;
use crate::course::Course;
use crate::effects::apply;
use crate::finding::{Finding, Harm};
use crate::harms::{harm_after, touched_by};
use crate::parts::Parts;
use crate::phase::Phase;
use crate::turning::turn;
use bus_signals::{BoardNo, LineNo};
use flat_memory::Flat;
use journal::Event;
use no_memory::NoMemory;
use setup::Setup;
use std::alloc::Global;
use table_check::BoardSpec;

/// The machine of any tables, the flat memory that tells the latest words, and what was found.
#[derive(Drop)]
struct Auditor {
    setup: Setup,
    parts: Parts,
    flat: Flat,
    journal: Vec<Event>,
    finding: Option<Finding>,
}

/// The words of memory cut into lines.
fn lines_of(alloc: Global, words: &[u32]) -> Result<Vec<[u32; 4]>, NoMemory>
    ensures { IfOk result (λ lines. lines.items ≡ lines_of_words words.now) }
{
    let mut lines = Vec::new(alloc);
    for line in 0..words.len() / 4 {
        let words = [
            words[4 * line],
            words[4 * line + 1],
            words[4 * line + 2],
            words[4 * line + 3],
        ];
        let Ok(()) = lines.push(words) else {
            return Err(NoMemory);
        };
    }
    Ok(lines)
}

/// Nothing done by these boards.
fn courses(alloc: Global, boards: &[BoardSpec]) -> Result<Vec<Course>, NoMemory>
    ensures { IfOk result
        (λ courses. courses.items ≡ map (λ (spec : BoardSpec). fresh) boards.now) }
{
    let mut courses = Vec::new(alloc);
    for _board in boards {
        let fresh = Course {
            place: 0,
            fills: 0,
            spent: 0,
            raised: false,
        };
        let Ok(()) = courses.push(fresh) else {
            return Err(NoMemory);
        };
    }
    Ok(courses)
}

/// No board was served.
fn unserved(alloc: Global, boards: &[BoardSpec]) -> Result<Vec<bool>, NoMemory>
    ensures { IfOk result (λ served. served.items ≡ map (λ (spec : BoardSpec). false) boards.now) }
{
    let mut served = Vec::new(alloc);
    for _board in boards {
        let Ok(()) = served.push(false) else {
            return Err(NoMemory);
        };
    }
    Ok(served)
}

/// The arbitration of a setup at its opening.
fn arbitration(alloc: Global, setup: &Setup) -> Result<Arbitration, NoMemory>
    ensures { IfOk result (λ arbitration. arbitration_of arbitration
        ≡ opening_arbitration setup.now) }
{
    if !setup.fair() {
        return Ok(Arbitration::ByNumber);
    }
    Ok(Arbitration::Fair(unserved(alloc, setup.boards())?))
}

/// The parts of a setup at its opening.
fn opening(alloc: Global, setup: &Setup) -> Result<Parts, NoMemory>
    ensures { IfOk result (λ parts. shown parts ≡ opening setup.now) }
{
    let memory = lines_of(alloc, setup.memory())?;
    let boards = courses(alloc, setup.boards())?;
    let arbitration = arbitration(alloc, setup)?;
    let rows: Vec<Held> = Vec::new(alloc);
    Ok(Parts {
        memory,
        rows,
        boards,
        phase: Phase::Idle,
        arbitration,
    })
}

/// A harm after the event of this number, as a finding.
fn finding_at(event: u32, harm: Option<(Harm, LineNo)>) -> Option<Finding>
    ensures { result ≡ found_or event harm None }
{
    match harm {
        None => None,
        Some((harm, line)) => Some(Finding { event, harm, line }),
    }
}

impl Auditor {
    /// An audit of a setup before its first turn.
    fn open(alloc: Global, setup: Setup) -> Result<Auditor, NoMemory>
        ensures audit { IfOk result (λ a. audit_so_far a ≡ unbegun setup) }
        ensures stands { IfOk result Stands }
    {
        let parts = opening(alloc, &setup)?;
        let Ok(words) = setup.memory().to_vec(alloc) else {
            return Err(NoMemory);
        };
        let journal = Vec::new(alloc);
        Ok(Auditor {
            setup,
            parts,
            flat: Flat::new(words),
            journal,
            finding: None,
        })
    }

    /// Does an event, and looks what is wrong after it.
    fn go(&mut self, event: Event) -> Result<(), NoMemory>
        requires stands { Stands self.old }
        requires none { self.old.finding ≡ None }
        requires turn { (board : ℕ)
            × (any_turn self.old.setup (led_to (audit_so_far self.old)) board ≡ Did event) }
        ensures audit { OnOk result
            (audit_so_far self.new ≡ with_event (audit_so_far self.old) event) }
        ensures stands { OnOk result (Stands self.new) }
    {
        let lines = touched_by(&self.setup, &self.parts, &event);
        apply(&self.setup, &mut self.parts, &event)?;
        let harm = harm_after(&self.parts, &mut self.flat, &event, lines);
        let Ok(()) = self.journal.push(event) else {
            return Err(NoMemory);
        };
        self.finding = finding_at(self.journal.len() as u32, harm);
        Ok(())
    }

    /// A turn of a board, unless something was found.
    fn take_turn(&mut self, board: BoardNo) -> Result<(), NoMemory>
        requires stands { Stands self.old }
        requires board { IsPlaceOf self.old.setup board }
        ensures audit { OnOk result
            (audit_so_far self.new ≡ audit_turn (audit_so_far self.old) board self.old.finding) }
        ensures stands { OnOk result (Stands self.new) }
    {
        if self.finding.is_some() {
            return Ok(());
        }
        match turn(&self.setup, &self.parts, board) {
            Some(event) => self.go(event),
            None => Ok(()),
        }
    }

    /// The turns of a schedule.
    fn take_turns(&mut self, schedule: &[u8]) -> Result<(), NoMemory>
        requires stands { Stands self.old }
        requires boards { AllByRecursion (IsPlaceOf self.old.setup) schedule.now }
        ensures audit { OnOk result
            (audit_so_far self.new ≡ audit_turns (audit_so_far self.old) schedule.now) }
        ensures stands { OnOk result (Stands self.new) }
    {
        for place in schedule {
            self.take_turn(BoardNo(*place))?;
        }
        Ok(())
    }

    /// A turn of each board, in order.
    fn round(&mut self) -> Result<(), NoMemory>
        requires stands { Stands self.old }
        ensures audit { OnOk result
            (audit_so_far self.new
            ≡ audit_turns (audit_so_far self.old) (board_places self.old.setup)) }
        ensures stands { OnOk result (Stands self.new) }
    {
        for place in 0..self.setup.boards().len() as u8 {
            self.take_turn(BoardNo(place + 1))?;
        }
        Ok(())
    }

    /// Rounds, until nothing comes of one.
    fn finish(&mut self) -> Result<(), NoMemory>
        requires stands { Stands self.old }
        ensures audit { OnOk result
            (audit_so_far self.new
            ≡ audit_turns (audit_so_far self.old)
            (repeated (8 * access_count self.old.setup) (board_places self.old.setup))) }
        ensures stands { OnOk result (Stands self.new) }
    {
        let mut rounds = 8 * self.setup.accesses();
        while rounds > 0 {
            let made = self.journal.len();
            self.round()?;
            if self.journal.len() == made {
                return Ok(());
            }
            rounds -= 1;
        }
        Ok(())
    }
}

/// Plays the turns of a schedule and then rounds, in which each board has one turn in order, until
/// the first harm or until every script is at its end.
pub fn audit(alloc: Global, setup: Setup, schedule: &[u8]) -> Result<Audit, NoMemory>
    requires { AllByRecursion (IsPlaceOf setup) schedule.now }
    // The events of the turns up to the first harm, and that harm.
    ensures audited { IfOk result (λ audit. audit ≡ audited setup schedule.now) }
    // Accepted tables do no harm, and their events are those of the machine.
    ensures agrees { AllInClass setup → IfOk result (λ audit. audit
        ≡ record { setup = setup; journal = played setup schedule.now; finding = None }) }
{
    let mut auditor = Auditor::open(alloc, setup)?;
    auditor.take_turns(schedule)?;
    auditor.finish()?;
    let Auditor {
        setup,
        journal,
        finding,
        ..
    } = auditor;
    Ok(Audit::of(setup, journal, finding))
}
