//! Two sources are asked everything, and answer alike.
use sources::{Counts, Parts, Source};
use std::process::Abort;
use std::test::Fail;

/// Two sources, and the runtime that an answer which differs ends.
#[derive(Drop)]
struct Compared<'a, R, A, B> {
    rt: &'a R,
    a: &'a A,
    b: &'a B,
}

impl<R: Abort, A: Source, B: Source> Compared<'_, R, A, B> {
    /// Asks both for the instance at a position, whole and by its parts.
    fn instance(&self, position: u32) -> Result<(), Fail> {
        let (rt, a, b) = (self.rt, self.a, self.b);
        assert_eq!(rt; a.record_at(position), b.record_at(position));
        assert_eq!(rt; a.operator_at(position), b.operator_at(position));
        assert_eq!(rt; a.written_at(position), b.written_at(position));
        assert_eq!(rt; a.reads_at(position), b.reads_at(position));
        assert_eq!(rt; a.count_at(position), b.count_at(position));
        for slot in 0..8 {
            assert_eq!(rt; a.cell_at(position, slot), b.cell_at(position, slot));
        }
        Ok(())
    }

    /// Asks both about a cell, at one number as count, position and version.
    fn number(&self, cell: u16, number: u32) -> Result<(), Fail> {
        let (rt, a, b) = (self.rt, self.a, self.b);
        assert_eq!(rt; a.writer(cell, number), b.writer(cell, number));
        assert_eq!(rt; a.earlier(cell, number), b.earlier(cell, number));
        assert_eq!(rt; a.readers(cell, number), b.readers(cell, number));
        Ok(())
    }

    /// Asks both about a cell.
    fn cell(&self, cell: u16) -> Result<(), Fail> {
        assert_eq!(self.rt; self.a.writes(cell), self.b.writes(cell));
        assert_eq!(self.rt; self.a.read_slots(cell), self.b.read_slots(cell));
        for number in 0..self.a.length().min(100) + 3 {
            self.number(cell, number)?;
        }
        self.number(cell, u32::MAX)
    }

    /// Asks both everything, past their ends too; only the numbers of cells may differ.
    fn whole(&self) -> Result<(), Fail> {
        assert_eq!(self.rt; self.a.length(), self.b.length());
        for position in 0..self.a.length().min(100) + 3 {
            self.instance(position)?;
        }
        self.instance(u32::MAX)?;
        for cell in 0..self.a.cells().max(self.b.cells()).min(100) + 2 {
            self.cell(cell)?;
        }
        self.cell(u16::MAX)
    }
}

/// Asks both everything; only the numbers of cells may differ.
pub(crate) fn same<A: Source, B: Source>(rt: &impl Abort, a: &A, b: &B) -> Result<(), Fail> {
    Compared { rt, a, b }.whole()
}
