//! The written list: rows in the caller's memory.
ghost use Rattle.std.specs.Prelude.{◌<◌, ◌≤◌, length};
ghost use Rattle.std.specs.List.{AllPass};
ghost use Rattle.written.specs.Rows.{row_fits};

use records::Row;

mod making;
mod questions;

pub use making::MOST_ROWS;

/// A number of cells, and rows that are records with cells below it.
// No model, since a type with a lifetime would lose Copy by it, which layers over one list need.
#[derive(Clone, Copy)]
pub struct WrittenList<'a> {
    cells: u16,
    rows: &'a [Row],
    ghost some_cells: { 0 < cells },
    ghost few_cells: { cells ≤ 4096 },
    ghost few_rows: { length rows.now ≤ 8192 },
    ghost fit: { AllPass (row_fits cells) rows.now },
}
