//! Which fault a reader finds: the first one of the text.

ghost use Rattle.setup_text.specs.FirstFaults.{SetupFaultsAreFirst, BookFaultsAreFirst, ScheduleFaultsAreFirst};

/// Reading a setup gives a fault exactly where that is the first fault of its text.
pub fn setup_faults_are_first()
    ensures { SetupFaultsAreFirst }
{}

/// Reading a text of tables gives a fault exactly where that is the first fault of the text.
pub fn book_faults_are_first()
    ensures { BookFaultsAreFirst }
{}

/// Reading a schedule gives a fault exactly where that is the first fault of its text.
pub fn schedule_faults_are_first()
    ensures { ScheduleFaultsAreFirst }
{}
