//! The kept states of a table are its greatest good set.

ghost use Rattle.table_library.specs.Greatest.{GoodGoesByCells, KeptIsGood, KeptIsGreatest, NarrowedIsInClass, NarrowedIsLargest};

/// A set of states is good for a table exactly where each cell that can be used there has an
/// alternative that fits it. Where some state set is good for a table, the kept states are one,
/// hold every state of every good one, and leave a table in the class, which has all that any part
/// of the table in the class needs.
pub fn kept_states_are_greatest()
    ensures by_cells { GoodGoesByCells }
    ensures good { KeptIsGood }
    ensures greatest { KeptIsGreatest }
    ensures in_class { NarrowedIsInClass }
    ensures largest { NarrowedIsLargest }
{}
