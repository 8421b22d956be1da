//! The parts of an instance, one by one.
ghost use Rattle.std.specs.Prelude.{◌≡◌};
ghost use Rattle.sources.specs.Questions.{operator_at, written_at, reads_at, cell_at};

use crate::source::Source;

/// The parts of the instance at a position, each absent where the position or the slot does not exist.
pub trait Parts: Source {
    /// The operator, 0 to 15.
    fn operator_at(&self, position: u32) -> Option<u8>
        ensures { result ≡ operator_at (Self.Source.list self.now) position }
    {
        self.record_at(position).map(|record| record.operator())
    }

    /// The written cell.
    fn written_at(&self, position: u32) -> Option<u16>
        ensures { result ≡ written_at (Self.Source.list self.now) position }
    {
        self.record_at(position).map(|record| record.written())
    }

    /// How many cells are read, at most five.
    fn reads_at(&self, position: u32) -> Option<usize>
        ensures { result ≡ reads_at (Self.Source.list self.now) position }
    {
        self.record_at(position).map(|record| record.reads().len())
    }

    /// The cell in a slot: slot 0 is the written cell, the reads follow from slot 1.
    fn cell_at(&self, position: u32, slot: usize) -> Option<u16>
        ensures { result ≡ cell_at (Self.Source.list self.now) position slot }
    {
        let record = self.record_at(position)?;
        let Some(read) = slot.checked_sub(1) else {
            return Some(record.written());
        };
        record.reads().get(read).copied()
    }
}

/// Every source has them.
impl<S: Source> Parts for S {}
