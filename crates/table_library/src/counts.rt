//! What a board did on the bus.

/// What a board did: the transactions that it connected as their master, the words that they moved,
/// the accesses that it completed without the bus, and the data phases in which it was the source,
/// and in which it took words.
#[derive(Clone, Copy, Debug, PartialEq, Eq)]
pub struct Counts {
    pub connects: u64,
    pub words: u64,
    pub local: u64,
    pub served: u64,
    pub took: u64,
}

/// The counts of a board that did nothing.
pub(crate) const NO_COUNTS: Counts = Counts {
    connects: 0,
    words: 0,
    local: 0,
    served: 0,
    took: 0,
};
