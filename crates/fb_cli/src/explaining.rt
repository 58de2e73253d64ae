//! `explain`: why the command of other words is refused.

ghost use Rattle.std.specs.Prelude.{◌≡◌, IfOk, map, string_bytes};
ghost use Rattle.fb_edge.specs.Outside.{Rose};
ghost use Rattle.explain.specs.Extends.{Extends};
ghost use Rattle.fb_cli.specs.Output.{refusal_output};
ghost use Rattle.fb_cli.specs.Explain.{explained};
ghost use Rattle.fb_cli.specs.Rows.{audit_rows, command_in, explained_rows, fileless_rows, study_rows};
ghost use Rattle.fb_cli.specs.Replies.{ComesTo, IsReady, answer_output, let_go};

use crate::answers::{Answer, Outcome, Refusal, Reply, refusal_line};
use crate::checking::is_book;
use crate::harm::explain_harm;
use crate::helping::say;
use crate::opening::limit_of;
use crate::role::Role;
use crate::rows::{
    exhibit_after, file_after, file_and_seed_after, files_after, kind_after, page_after,
    seed_after, text_alone,
};
use crate::seen::Seen;
use crate::told::Told;
use crate::{auditing, checking, exhibiting, narrowing, replaying, running, showing};
use audit::Finding;
use explain::{
    explain_alone, explain_length, explain_schedule, explain_setup, explain_tables, explain_trace,
    explain_unread, explain_words,
};
use fb_edge::Shelf;
use fb_text::Text;
use no_memory::NoMemory;
use setup_text::read_setup;
use std::alloc::Global;

#[cfg(test)]
mod tests;

/// What stands before a command that opens no file is done: an exhibit is audited, and nothing stands
/// against the others.
fn ready_alone(alloc: Global, words: &[String], seen: &mut Seen) -> Result<(), Reply>
    ensures { IsReady (command_in fileless_rows (map string_bytes words.now)) None ⊥ result }
{
    if let Some(_) = seed_after("make", words) {
        return Ok(());
    }
    if let Some(_) = seed_after("tally", words) {
        return Ok(());
    }
    if let Some(_) = kind_after("library", words) {
        return Ok(());
    }
    if let Some(number) = exhibit_after("exhibit", words) {
        return done(exhibiting::ready(alloc, number, seen));
    }
    if let Some(_) = text_alone(words) {
        return Ok(());
    }
    if let Some(_) = page_after("help", words) {
        return Ok(());
    }
    Err(Reply::Refused(Refusal::NoRow))
}

/// What stands before a setup is audited is done, or before a command that opens no file.
fn ready_to_audit<F: Shelf>(
    alloc: Global,
    words: &[String],
    shelf: &mut F,
    seen: &mut Seen,
) -> Result<(), Reply>
    ensures { IsReady (command_in audit_rows (map string_bytes words.now)) (F.file shelf.old)
        (Rose (F.faults shelf.old) (F.faults shelf.new)) result }
{
    if let Some((setup, schedule)) = files_after("audit", words) {
        return done(auditing::ready(alloc, setup, schedule, shelf, seen));
    }
    if let Some((setup, seed)) = file_and_seed_after("audit", words) {
        return done(auditing::ready_seeded(alloc, setup, seed, shelf, seen));
    }
    ready_alone(alloc, words, seen)
}

/// What stands before a table or a run is studied is done, or before a command that opens no file.
fn ready_to_study<F: Shelf>(
    alloc: Global,
    words: &[String],
    shelf: &mut F,
    seen: &mut Seen,
) -> Result<(), Reply>
    ensures { IsReady (command_in study_rows (map string_bytes words.now)) (F.file shelf.old)
        (Rose (F.faults shelf.old) (F.faults shelf.new)) result }
{
    if let Some(table) = file_after("narrow", words) {
        return done(narrowing::ready(alloc, table, shelf, seen));
    }
    if let Some((setup, schedule)) = files_after("traffic", words) {
        return done(running::ready(alloc, setup, schedule, shelf, seen));
    }
    if let Some((setup, _)) = file_and_seed_after("traffic", words) {
        return done(running::ready_setup(alloc, setup, shelf, seen));
    }
    ready_to_audit(alloc, words, shelf, seen)
}

/// What stands before the command of words is done: nothing, or the reply with which it stops.
fn ready<F: Shelf>(
    alloc: Global,
    words: &[String],
    shelf: &mut F,
    seen: &mut Seen,
) -> Result<(), Reply>
    ensures { IsReady (command_in explained_rows (map string_bytes words.now)) (F.file shelf.old)
        (Rose (F.faults shelf.old) (F.faults shelf.new)) result }
{
    if let Some(setup) = file_after("race", words) {
        return done(running::ready_setup(alloc, setup, shelf, seen));
    }
    if let Some(setup) = file_after("check", words) {
        return done(checking::ready(alloc, setup, shelf, seen));
    }
    if let Some(setup) = file_after("show", words) {
        return done(showing::ready(alloc, setup, shelf, seen));
    }
    if let Some((setup, schedule)) = files_after("run", words) {
        return done(running::ready(alloc, setup, schedule, shelf, seen));
    }
    if let Some((setup, _)) = file_and_seed_after("run", words) {
        return done(running::ready_setup(alloc, setup, shelf, seen));
    }
    if let Some((setup, trace)) = files_after("replay", words) {
        return done(replaying::ready(alloc, setup, trace, shelf, seen));
    }
    ready_to_study(alloc, words, shelf, seen)
}

/// Lets go of what was made ready.
fn done<X: Drop>(ready: Result<X, Reply>) -> Result<(), Reply>
    ensures { result ≡ let_go ready }
{
    match ready {
        Ok(_) => Ok(()),
        Err(reply) => Err(reply),
    }
}

/// The name of the file in a role.
fn name_of(words: &[String], role: Role) -> &str {
    let place = match role {
        Role::Setup => 1,
        Role::Schedule | Role::Trace => 2usize,
    };
    match words.get(place) {
        Some(word) => word.as_str(),
        None => "",
    }
}

/// Whether a word is the first one.
fn begin_with(words: &[String], name: &str) -> bool {
    match words.first() {
        Some(word) => word.as_str() == name,
        None => false,
    }
}

/// Appends why a setup or a text of tables is refused.
fn explain_first(
    alloc: Global,
    words: &[String],
    bytes: &[u8],
    text: &mut Text,
) -> Result<(), NoMemory>
    ensures { Extends text.old.bytes text.new.bytes }
{
    if begin_with(words, "narrow") {
        return explain_alone(alloc, bytes, text);
    }
    if begin_with(words, "check") && bytes.len() < 2_147_483_648 && is_book(bytes) {
        return explain_tables(alloc, bytes, text);
    }
    explain_setup(alloc, bytes, text)
}

/// Appends why a schedule is refused.
fn explain_second(alloc: Global, seen: &Seen, text: &mut Text) -> Result<(), NoMemory>
    ensures { Extends text.old.bytes text.new.bytes }
{
    let mut boards = 16;
    if seen.setup.len() < 2_147_483_648 {
        if let Ok(setup) = read_setup(alloc, &seen.setup) {
            boards = setup.boards().len() as u8;
        }
    }
    explain_schedule(alloc, &seen.other, boards, text)
}

/// Appends why files are refused.
fn explain_files(
    alloc: Global,
    words: &[String],
    seen: &Seen,
    outcome: Outcome,
    text: &mut Text,
) -> Result<(), NoMemory>
    ensures { Extends text.old.bytes text.new.bytes }
{
    match (outcome, seen.last) {
        (Outcome::TooLong, role) => {
            explain_length(
                alloc,
                name_of(words, role),
                seen.length,
                limit_of(role),
                text,
            )
        }
        (Outcome::Malformed, Role::Schedule) => explain_second(alloc, seen, text),
        (_, Role::Trace) => explain_trace(alloc, &seen.setup, &seen.other, text),
        (_, Role::Setup | Role::Schedule) => explain_first(alloc, words, &seen.setup, text),
    }
}

/// Appends what a finding is, and which tables of the setup are not in the class.
fn explain_finding(
    alloc: Global,
    seen: &Seen,
    finding: Finding,
    text: &mut Text,
) -> Result<(), NoMemory>
    ensures { Extends text.old.bytes text.new.bytes }
{
    explain_harm(alloc, finding, text)?;
    explain_setup(alloc, &seen.setup, text)
}

/// An audit with which a command stopped, and its explanation.
fn explained_audit(alloc: Global, seen: &Seen, told: Told) -> Result<Told, NoMemory>
    ensures audit { IfOk result (λ more. more.audit ≡ told.audit) }
    ensures last { IfOk result (λ more. Extends told.last.bytes more.last.bytes) }
{
    let mut told = told;
    if let Some(finding) = told.audit.finding() {
        explain_finding(alloc, seen, finding, &mut told.last)?;
    }
    Ok(told)
}

/// An answer with which a command stopped, and its explanation.
fn explained_answer(
    alloc: Global,
    words: &[String],
    seen: &Seen,
    answer: Answer,
) -> Result<Answer, NoMemory>
    ensures status { IfOk result
        (λ more. (answer_output more).status ≡ (answer_output answer).status) }
    ensures text { IfOk result
        (λ more. Extends (answer_output answer).text (answer_output more).text) }
{
    match answer {
        Answer::Said { outcome, text } => {
            let mut text = text;
            explain_files(alloc, words, seen, outcome, &mut text)?;
            Ok(Answer::Said { outcome, text })
        }
        Answer::Audited(told) => Ok(Answer::Audited(explained_audit(alloc, seen, told)?)),
        other => Ok(other),
    }
}

/// The line of a refusal.
fn line_of(alloc: Global, refusal: Refusal) -> Result<Text, NoMemory>
    ensures { IfOk result (λ text. text.bytes ≡ (refusal_output refusal).text) }
{
    let line = refusal_line(refusal);
    let mut text = Text::new(alloc);
    text.reserve(line.len())?;
    text.push(line);
    Ok(text)
}

/// That words ask for no command, and why.
fn explained_words(alloc: Global, words: &[String]) -> Result<Text, NoMemory>
    ensures { IfOk result (λ text. Extends (refusal_output Refusal.NoRow).text text.bytes) }
{
    let mut text = line_of(alloc, Refusal::NoRow)?;
    explain_words(alloc, words, &mut text)?;
    Ok(text)
}

/// That a file was not read, and what may be the matter.
fn explained_unread(alloc: Global, words: &[String], role: Role) -> Result<Text, NoMemory>
    ensures { IfOk result (λ text. Extends (refusal_output (Refusal.Unread role)).text text.bytes) }
{
    let called = match role {
        Role::Setup => "the setup",
        Role::Schedule => "the schedule",
        Role::Trace => "the trace",
    };
    let mut text = line_of(alloc, Refusal::Unread(role))?;
    explain_unread(alloc, name_of(words, role), called, &mut text)?;
    Ok(text)
}

/// Does `explain` of these words.
pub fn explain<F: Shelf>(alloc: Global, words: &[String], shelf: &mut F) -> Reply
    ensures { ComesTo (explained (command_in explained_rows (map string_bytes words.now)))
        (F.file shelf.old) (Rose (F.faults shelf.old) (F.faults shelf.new)) result }
{
    let mut seen = Seen::all(alloc);
    match ready(alloc, words, shelf, &mut seen) {
        Ok(()) => say(alloc, "no fault\n"),
        Err(Reply::Answered(answer)) => Reply::of(explained_answer(alloc, words, &seen, answer)),
        Err(Reply::Refused(Refusal::NoRow)) => match explained_words(alloc, words) {
            Ok(text) => Reply::Explained {
                refusal: Refusal::NoRow,
                text,
            },
            Err(NoMemory) => Reply::Refused(Refusal::NoRow),
        },
        Err(Reply::Refused(Refusal::Unread(role))) => match explained_unread(alloc, words, role) {
            Ok(text) => Reply::Explained {
                refusal: Refusal::Unread(role),
                text,
            },
            Err(NoMemory) => Reply::Refused(Refusal::NoMemory),
        },
        Err(Reply::Refused(Refusal::NoMemory)) => Reply::Refused(Refusal::NoMemory),
        Err(Reply::Explained { refusal, text }) => Reply::Explained { refusal, text },
    }
}
