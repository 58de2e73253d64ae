//! The commands of the program: their names, and the words after them.

/// A command of the program.
#[derive(Clone, Copy)]
pub enum Command {
    Check,
    Show,
    Run,
    Race,
    Replay,
    Make,
    Tally,
    Library,
    Narrow,
    Traffic,
    Audit,
    Exhibit,
    Explain,
    Help,
    Version,
}

/// The names of the commands, in the order in which they are listed.
pub const NAMES: [&str; 15] = [
    "check", "show", "run", "race", "replay", "make", "tally", "library", "narrow", "traffic",
    "audit", "exhibit", "explain", "help", "version",
];

impl Command {
    /// The command of this name.
    pub fn named(word: &str) -> Option<Command> {
        match word {
            "check" => Some(Command::Check),
            "show" => Some(Command::Show),
            "run" => Some(Command::Run),
            "race" => Some(Command::Race),
            "replay" => Some(Command::Replay),
            "make" => Some(Command::Make),
            "tally" => Some(Command::Tally),
            "library" => Some(Command::Library),
            "narrow" => Some(Command::Narrow),
            "traffic" => Some(Command::Traffic),
            "audit" => Some(Command::Audit),
            "exhibit" => Some(Command::Exhibit),
            "explain" => Some(Command::Explain),
            "help" | "-h" | "--help" => Some(Command::Help),
            "version" | "--version" => Some(Command::Version),
            _ => None,
        }
    }

    /// The words that ask for the command.
    pub fn form(self) -> &'static str {
        match self {
            Command::Check => "check FILE",
            Command::Show => "show SETUP",
            Command::Run => "run SETUP SCHEDULE, or SETUP seed NUMBER",
            Command::Race => "race SETUP",
            Command::Replay => "replay SETUP TRACE",
            Command::Make => "make NUMBER",
            Command::Tally => "tally NUMBER",
            Command::Library => "library NAME",
            Command::Narrow => "narrow TABLE",
            Command::Traffic => "traffic SETUP SCHEDULE, or SETUP seed NUMBER",
            Command::Audit => "audit SETUP SCHEDULE, or SETUP seed NUMBER",
            Command::Exhibit => "exhibit NUMBER, from 1 to 12",
            Command::Explain => "explain WORDS, those of another command",
            Command::Help => "help [COMMAND]",
            Command::Version => "version",
        }
    }

    /// The least and the most words after the command's name.
    pub fn counts(self) -> (usize, usize) {
        match self {
            Command::Check
            | Command::Show
            | Command::Race
            | Command::Make
            | Command::Tally
            | Command::Library
            | Command::Narrow
            | Command::Exhibit => (1, 1),
            Command::Run | Command::Traffic | Command::Audit => (2, 3),
            Command::Replay => (2, 2),
            Command::Explain => (1, 4),
            Command::Help => (0, 1),
            Command::Version => (0, 0),
        }
    }
}
