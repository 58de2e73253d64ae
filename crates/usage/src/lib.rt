//! What the program says of itself: its commands, the statuses, and its version. The page of the
//! manual and the completion of words are made from what is printed here.
#![tactic(auto)]

ghost use Rattle.std.specs.Prelude.{◌≡◌, ◌++◌, option_map};
ghost use Rattle.usage.specs.Usage.{help_text, other_pages, page_named, pages, study_pages, version_text};

#[cfg(test)]
mod tests;

/// All commands, the statuses, and where the documents are.
pub fn help_text() -> &'static str
    ensures { result.now ≡ help_text }
{
    "check FILE: judges each table of a text of tables or of a setup\n\
     show SETUP: prints the written spelling of a setup\n\
     run SETUP SCHEDULE, or run SETUP seed NUMBER: \
     prints the run of a setup by a schedule, or by drawn turns\n\
     replay SETUP TRACE: prints the ending of the run that a trace tells\n\
     race SETUP: prints a run of a setup in which each board has a thread\n\
     narrow TABLE: prints the largest part of a table that is in the class\n\
     traffic SETUP SCHEDULE, or traffic SETUP seed NUMBER: counts what crossed the bus in a run\n\
     audit SETUP SCHEDULE, or audit SETUP seed NUMBER: \
     prints the run of any tables up to the first harm\n\
     make NUMBER: prints the generated setup of a number\n\
     tally NUMBER: prints counts over a run of the generated setup of a number\n\
     library NAME: prints the table of a known protocol: cb, up, wt, wb, ex or un\n\
     exhibit NUMBER: prints a run that does harm, of one of 12 tables that are refused\n\
     explain WORDS: says why the command of these words is refused\n\
     help, or help COMMAND: lists the commands, or says what one takes\n\
     version: prints the version, and the kit that proves the program\n\
     status 0: done\n\
     status 1: a table or a trace is refused\n\
     status 2: the words ask for no command\n\
     status 3: a text is not in its grammar\n\
     status 4: a file was not read\n\
     status 5: the output was not written\n\
     status 6: memory ran out\n\
     status 7: a file is too long\n\
     status 9: no part of a table is in the class, or an event of an audit does harm\n\
     documents: README.md, docs/TEXTS.md, docs/MODEL.md, docs/PROOFS.md\n"
}

/// The name and the version of the program, and the kit that proves it.
pub fn version_text() -> &'static str
    ensures { result.now ≡ version_text }
{
    "futurebus 1.0\n\
     rattle-kit-13f logic dac8208d650f15bf\n"
}

/// What is said of the command of this name: its words, an example and its statuses.
pub fn page_named(name: &str) -> Option<&'static str>
    ensures { option_map (λ text. text.now) result ≡ page_named name.now pages }
{
    match name {
        "check" => Some(
            "check FILE: judges each table of a text of tables or of a setup\n\
             example: ./futurebus check examples/silent-sharer.table\n\
             statuses: 0 1 3 4 5 6 7\n",
        ),
        "show" => Some(
            "show SETUP: prints the written spelling of a setup\n\
             example: ./futurebus show examples/tour.setup\n\
             statuses: 0 3 4 5 6 7\n",
        ),
        "run" => Some(
            "run SETUP SCHEDULE, or run SETUP seed NUMBER: \
             prints the run of a setup by a schedule, or by drawn turns\n\
             example: ./futurebus run examples/tour.setup seed 1\n\
             statuses: 0 1 3 4 5 6 7\n",
        ),
        "replay" => Some(
            "replay SETUP TRACE: prints the ending of the run that a trace tells\n\
             example: ./futurebus replay examples/tour.setup trace\n\
             statuses: 0 1 3 4 5 6 7\n",
        ),
        "race" => Some(
            "race SETUP: prints a run of a setup in which each board has a thread\n\
             example: ./futurebus race examples/tour.setup\n\
             statuses: 0 1 3 4 5 6 7\n",
        ),
        _ => study_page_named(name),
    }
}

/// The same of a command that studies a table or a run, or takes no file.
fn study_page_named(name: &str) -> Option<&'static str>
    ensures { option_map (λ text. text.now) result
        ≡ page_named name.now (study_pages ++ other_pages) }
{
    match name {
        "narrow" => Some(
            "narrow TABLE: prints the largest part of a table that is in the class\n\
             example: ./futurebus narrow examples/half-exclusive.table\n\
             statuses: 0 3 4 5 6 7 9\n",
        ),
        "traffic" => Some(
            "traffic SETUP SCHEDULE, or traffic SETUP seed NUMBER: counts what crossed the bus in a run\n\
             example: ./futurebus traffic examples/mixture.setup seed 1\n\
             statuses: 0 1 3 4 5 6 7\n",
        ),
        "audit" => Some(
            "audit SETUP SCHEDULE, or audit SETUP seed NUMBER: \
             prints the run of any tables up to the first harm\n\
             example: ./futurebus audit examples/silent-sharer.setup seed 1\n\
             statuses: 0 3 4 5 6 7 9\n",
        ),
        _ => other_page_named(name),
    }
}

/// The same of a command that takes no file.
fn other_page_named(name: &str) -> Option<&'static str>
    ensures { option_map (λ text. text.now) result ≡ page_named name.now other_pages }
{
    match name {
        "make" => Some(
            "make NUMBER: prints the generated setup of a number\n\
             example: ./futurebus make 1\n\
             statuses: 0 5 6\n",
        ),
        "tally" => Some(
            "tally NUMBER: prints counts over a run of the generated setup of a number\n\
             example: ./futurebus tally 1\n\
             statuses: 0 5 6\n",
        ),
        "library" => Some(
            "library NAME: prints the table of a known protocol: cb, up, wt, wb, ex or un\n\
             example: ./futurebus library cb\n\
             statuses: 0 5 6\n",
        ),
        "exhibit" => Some(
            "exhibit NUMBER: prints a run that does harm, of one of 12 tables that are refused\n\
             example: ./futurebus exhibit 5\n\
             statuses: 5 6 9\n",
        ),
        "explain" => Some(
            "explain WORDS: says why the command of these words is refused\n\
             example: ./futurebus explain check examples/silent-sharer.table\n\
             statuses: 0 1 2 3 4 5 6 7 9\n",
        ),
        "help" => Some(
            "help, or help COMMAND: lists the commands, or says what one takes\n\
             example: ./futurebus help run\n\
             statuses: 0 5 6\n",
        ),
        "version" => Some(
            "version: prints the version, and the kit that proves the program\n\
             example: ./futurebus version\n\
             statuses: 0 5 6\n",
        ),
        _ => None,
    }
}
