//! `tally`: counts over the run of the generated setup of a number.

ghost use Rattle.std.specs.Prelude.{◌≡◌, None, true, IfOk};
ghost use Rattle.std.specs.List.{list_all};
ghost use Rattle.generator.specs.Generated.{generated};
ghost use Rattle.fb_cli.specs.Report.{is_accepted};
ghost use Rattle.fb_cli.specs.Fileless.{counts_of, tally};
ghost use Rattle.fb_cli.specs.Replies.{Comes, answer_output};

use crate::answers::{Answer, Outcome, Reply};
use crate::starting::start;
use fb_text::Text;
use generator::{generated_setups_are_accepted, make_setup};
use no_memory::NoMemory;
use player::play_seeded;
use setup::Setup;
use std::alloc::Global;
use tally::write_tally;

/// The generated setup of a number, whose tables are accepted.
fn generated(alloc: Global, seed: u64) -> Result<Setup, NoMemory>
    ensures setup { IfOk result (λ setup. setup ≡ generated seed) }
    ensures accepted { IfOk result (λ setup. list_all is_accepted setup.tables ≡ true) }
{
    generated_setups_are_accepted(); // gives InClass to the prover
    make_setup(alloc, seed)
}

/// The counts over the run of a generated setup.
fn counts(alloc: Global, seed: u64) -> Result<Answer, NoMemory>
    ensures { IfOk result (λ answer.
        answer_output answer ≡ record { status = 0; text = counts_of seed }) }
{
    let setup = generated(alloc, seed)?;
    let accesses = setup.accesses();
    let mut machine = start(alloc, setup)?;
    let mut text = Text::new(alloc);
    text.reserve(512)?;
    play_seeded(&mut machine, seed, accesses);
    write_tally(seed, machine.journal(), &mut text);
    Ok(Answer::Said {
        outcome: Outcome::Done,
        text,
    })
}

/// Does `tally`. It opens no file, so its answer is known whatever is known of the files.
pub fn tally(alloc: Global, seed: u64) -> Reply
    ensures { Comes (tally seed) None ⊥ result }
{
    Reply::of(counts(alloc, seed))
}
