//! The faults of a text of tables, a setup or a schedule.

use no_memory::NoMemory;

/// What a text has too many or too few of.
#[derive(Clone, Copy, Debug, PartialEq, Eq)]
pub enum LimitOf {
    /// Lines of memory.
    Lines,
    Tables,
    Boards,
    /// Frames of one board.
    Frames,
    /// Accesses over all scripts.
    Accesses,
    /// Alternatives of one cell.
    Alternatives,
}

/// The kind of a fault.
#[derive(Clone, Copy, Debug, PartialEq, Eq)]
pub enum SetupKind {
    /// A word that is not allowed here, or no word where one is needed.
    UnknownWord,
    /// No number where one is needed, a number out of range, or a place that is not the next one.
    Number,
    /// An address that memory lacks.
    Address,
    /// An earlier table has the name.
    TwiceName,
    /// An earlier board has the number.
    TwiceNumber,
    /// The cell was already given.
    TwiceCell,
    /// The line gives its cell no alternatives.
    NoCell,
    /// No table has the name.
    NoTable,
    /// The table of a plain board reaches a state other than I.
    NoFrames,
    /// Too many or too few, and how many there are.
    Limit { of: LimitOf, count: u64 },
    /// The text ends before its `end` line.
    NoEnd,
}

/// Why a text was not read.
#[derive(Clone, Copy, Debug, PartialEq, Eq)]
pub enum SetupFault {
    Bad { line: u32, kind: SetupKind },
    NoMemory,
}

impl From<NoMemory> for SetupFault {
    ghost use Rattle.std.specs.Prelude.{◌≡◌};
    ghost use Rattle.setup_text.specs.declared.fault.SetupFault.TheVariants as faults;

    ghost from_gives = { λ _ e. e ≡ faults.NoMemory };

    fn from(_fault: NoMemory) -> SetupFault {
        SetupFault::NoMemory
    }
}
