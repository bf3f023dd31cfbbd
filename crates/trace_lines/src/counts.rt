/// What was done in a run so far.
#[derive(Clone, Copy, Debug, PartialEq, Eq)]
pub struct Counts {
    /// Beats of writes that agents took, and words that reads asked of them.
    pub taken: u64,
    /// Words that hosts were given.
    pub answered: u64,
    /// Symbols that sinks were given.
    pub delivered: u64,
    /// Beats that were dropped.
    pub dropped: u64,
}
