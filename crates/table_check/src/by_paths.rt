//! The class of tables, stated by paths.

ghost use Rattle.table_check.specs.Paths.{ReachedGoesByPaths, ClassGoesByPaths};

/// The states that the checker finds are those to which paths of results lead from I, and a table
/// has no faults exactly where each alternative is permitted and each cell that is needed by paths
/// has an alternative.
pub fn class_goes_by_paths()
    ensures reached { ReachedGoesByPaths }
    ensures in_class { ClassGoesByPaths }
{}
