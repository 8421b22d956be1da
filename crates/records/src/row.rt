//! Rows of memory.

/// The most reads that a record has.
pub const MOST_READS: usize = 5;

/// A record as it lies in memory. Anything may stand in it: `Record::try_from` says whether it is a record.
// An array with a count beside it, and no Vec: rows lie in the caller's memory, without a heap.
#[derive(Clone, Copy, Debug)]
pub struct Row {
    /// What is done, 0 to 15 in a record.
    pub operator: u8,
    /// The cell that is written.
    pub written: u16,
    /// How many of `reads`, from the first, are read. What stands past them means nothing.
    pub count: u8,
    /// The cells that are read, and what lies past them.
    pub reads: [u16; MOST_READS],
}
