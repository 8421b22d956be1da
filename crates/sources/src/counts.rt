//! Counts over a whole source. Their contracts carry the laws that tie the questions together.
ghost use Rattle.std.specs.Prelude.{◌≡◌};
ghost use Rattle.sources.specs.Laws.{ReadersAddUp, WriterCounted, WriterExact};
ghost use Rattle.sources.specs.Questions.{count_at, read_slots, writes};

use crate::source::Source;

/// What follows from the answers of any source.
pub trait Counts: Source {
    /// How many instances write `cell`: one more than the last count that has a writer.
    fn writes(&self, cell: u16) -> u32
        ensures answer { result ≡ writes cell (Self.Source.list self.now) }
        ensures law { WriterCounted }
    {
        self.earlier(cell, self.length())
    }

    /// How many earlier instances write the cell that the one at a position writes: the count at which `writer` answers
    /// this position.
    fn count_at(&self, position: u32) -> Option<u32>
        ensures answer { result ≡ count_at (Self.Source.list self.now) position }
        ensures law { WriterExact }
    {
        self.record_at(position)
            .map(|record| self.earlier(record.written(), position))
    }

    /// How many read slots hold `cell`, as the sum of its readers over all versions.
    fn read_slots(&self, cell: u16) -> u32
        ensures answer { result ≡ read_slots cell (Self.Source.list self.now) }
        ensures law { ReadersAddUp }
    {
        (0..=self.writes(cell))
            .map(|version| self.readers(cell, version))
            .sum()
    }
}

/// Every source has them.
impl<S: Source> Counts for S {}
