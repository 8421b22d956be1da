//! The text of a record, as `op 1, 5 <- 2 4`.
ghost use Rattle.std.specs.Prelude.{Some};
ghost use Rattle.records.specs.Meaning.{instance};
ghost use Rattle.records.specs.Text.{cells_text, text};

use crate::record::Record;
use std::fmt;

impl fmt::Display for Record {
    ghost output = { λ x. Some (text (instance x)) };

    fn fmt<W: fmt::Write>(&self, f: &mut fmt::Formatter<W>) -> fmt::Result {
        let operator = self.operator();
        let written = self.written();
        let reads = Spaced {
            cells: self.reads(),
        };
        write!(f, "op {operator}, {written} <-{reads}")
    }
}

/// Cells as text, each after a space.
#[derive(Clone, Copy)]
struct Spaced<'a> {
    cells: &'a [u16],
}

impl fmt::Display for Spaced<'_> {
    ghost output = { λ x. Some (cells_text x.cells.now) };

    fn fmt<W: fmt::Write>(&self, f: &mut fmt::Formatter<W>) -> fmt::Result {
        for cell in self.cells {
            write!(f, " {cell}")?;
        }
        Ok(())
    }
}
