//! The commands for programs in C: texts in memory in, a text in the caller's buffer out.
//!
//! Each call ends with a status and the length of its text. The statuses are those of the program;
//! 5 says that the buffer is shorter than the text, of which it then has the first bytes. No call
//! opens a file, prints, or keeps anything.
#![tactic(auto)]

ghost use Rattle.std.specs.Prelude.{[], codes};
ghost use Rattle.fb_cli.specs.Check.{check};
ghost use Rattle.fb_cli.specs.Fileless.{make, tally};
ghost use Rattle.fb_cli.specs.Narrow.{narrow};
ghost use Rattle.fb_cli.specs.Replay.{replay};
ghost use Rattle.fb_cli.specs.Run.{run, run_seeded};
ghost use Rattle.fb_cli.specs.Show.{show};
ghost use Rattle.fb_cli.specs.Traffic.{traffic, traffic_seeded};
ghost use Rattle.futurebus_c.specs.Texts.{files_of};
ghost use Rattle.futurebus_c.specs.Given.{Given};

mod answer;
mod collected;
mod responding;
mod texts;
mod words;

use answer::FbAnswer;
use responding::respond;
use std::alloc::Global;
use texts::{FIRST, SECOND};
use words::{three, two, with_number, with_seed};

/// The verdict on each table of a text of tables or of a setup.
#[tactic(auto, using(crate::proofs::Asked::check_given))]
#[unsafe(no_mangle)]
pub extern "C" fn fb_check(alloc: Global, text: &[u8], buffer: &mut [u8], answer: &mut FbAnswer)
    ensures { Given (check (codes "first")) (files_of text.now []) buffer.new
        answer.new.status answer.new.count }
{
    *answer = respond(alloc, two(alloc, "check", FIRST), text, &[], buffer);
}

/// The setup of a text, written again.
#[tactic(auto, using(crate::proofs::Asked::show_given))]
#[unsafe(no_mangle)]
pub extern "C" fn fb_show(alloc: Global, setup: &[u8], buffer: &mut [u8], answer: &mut FbAnswer)
    ensures { Given (show (codes "first")) (files_of setup.now []) buffer.new
        answer.new.status answer.new.count }
{
    *answer = respond(alloc, two(alloc, "show", FIRST), setup, &[], buffer);
}

/// The largest part of a table that is in the class.
#[tactic(auto, using(crate::proofs::Asked::narrow_given))]
#[unsafe(no_mangle)]
pub extern "C" fn fb_narrow(alloc: Global, table: &[u8], buffer: &mut [u8], answer: &mut FbAnswer)
    ensures { Given (narrow (codes "first")) (files_of table.now []) buffer.new
        answer.new.status answer.new.count }
{
    *answer = respond(alloc, two(alloc, "narrow", FIRST), table, &[], buffer);
}

/// The run of a setup by a schedule, and its ending.
#[tactic(auto, using(crate::proofs::Asked::run_given))]
#[unsafe(no_mangle)]
pub extern "C" fn fb_run(
    alloc: Global,
    setup: &[u8],
    schedule: &[u8],
    buffer: &mut [u8],
    answer: &mut FbAnswer,
)
    ensures { Given (run (codes "first") (codes "second")) (files_of setup.now schedule.now)
        buffer.new answer.new.status answer.new.count }
{
    *answer = respond(
        alloc,
        three(alloc, "run", FIRST, SECOND),
        setup,
        schedule,
        buffer,
    );
}

/// Whether a trace is that of a complete run of a setup, and its ending.
#[tactic(auto, using(crate::proofs::Asked::replay_given))]
#[unsafe(no_mangle)]
pub extern "C" fn fb_replay(
    alloc: Global,
    setup: &[u8],
    trace: &[u8],
    buffer: &mut [u8],
    answer: &mut FbAnswer,
)
    ensures { Given (replay (codes "first") (codes "second")) (files_of setup.now trace.now)
        buffer.new answer.new.status answer.new.count }
{
    *answer = respond(
        alloc,
        three(alloc, "replay", FIRST, SECOND),
        setup,
        trace,
        buffer,
    );
}

/// What each board and memory did on the bus in a run by a schedule.
#[tactic(auto, using(crate::proofs::Asked::traffic_given))]
#[unsafe(no_mangle)]
pub extern "C" fn fb_traffic(
    alloc: Global,
    setup: &[u8],
    schedule: &[u8],
    buffer: &mut [u8],
    answer: &mut FbAnswer,
)
    ensures { Given (traffic (codes "first") (codes "second")) (files_of setup.now schedule.now)
        buffer.new answer.new.status answer.new.count }
{
    *answer = respond(
        alloc,
        three(alloc, "traffic", FIRST, SECOND),
        setup,
        schedule,
        buffer,
    );
}

/// The run of a setup by the schedule of a number, and its ending.
#[tactic(auto, using(crate::proofs::Asked::run_seeded_given))]
#[unsafe(no_mangle)]
pub extern "C" fn fb_run_seeded(
    alloc: Global,
    setup: &[u8],
    seed: u64,
    buffer: &mut [u8],
    answer: &mut FbAnswer,
)
    ensures { Given (run_seeded (codes "first") seed) (files_of setup.now []) buffer.new
        answer.new.status answer.new.count }
{
    *answer = respond(
        alloc,
        with_seed(alloc, "run", FIRST, seed),
        setup,
        &[],
        buffer,
    );
}

/// What each board and memory did on the bus in a run by the schedule of a number.
#[tactic(auto, using(crate::proofs::Asked::traffic_seeded_given))]
#[unsafe(no_mangle)]
pub extern "C" fn fb_traffic_seeded(
    alloc: Global,
    setup: &[u8],
    seed: u64,
    buffer: &mut [u8],
    answer: &mut FbAnswer,
)
    ensures { Given (traffic_seeded (codes "first") seed) (files_of setup.now []) buffer.new
        answer.new.status answer.new.count }
{
    *answer = respond(
        alloc,
        with_seed(alloc, "traffic", FIRST, seed),
        setup,
        &[],
        buffer,
    );
}

/// The generated setup of a number.
#[tactic(auto, using(crate::proofs::Asked::make_given))]
#[unsafe(no_mangle)]
pub extern "C" fn fb_make(alloc: Global, seed: u64, buffer: &mut [u8], answer: &mut FbAnswer)
    ensures { Given (make seed) (files_of [] []) buffer.new answer.new.status
        answer.new.count }
{
    *answer = respond(alloc, with_number(alloc, "make", seed), &[], &[], buffer);
}

/// The counts over the run of a generated setup.
#[tactic(auto, using(crate::proofs::Asked::tally_given))]
#[unsafe(no_mangle)]
pub extern "C" fn fb_tally(alloc: Global, seed: u64, buffer: &mut [u8], answer: &mut FbAnswer)
    ensures { Given (tally seed) (files_of [] []) buffer.new answer.new.status
        answer.new.count }
{
    *answer = respond(alloc, with_number(alloc, "tally", seed), &[], &[], buffer);
}

#[cfg(test)]
mod tests;
