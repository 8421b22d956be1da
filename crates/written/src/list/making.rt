//! Rows become a written list.
ghost use Rattle.std.specs.Prelude.{◌≡◌, if◌then◌else◌, [], map};
ghost use Rattle.std.specs.Result.{IfOk, is_ok};
ghost use Rattle.records.specs.Making.{result_map};
ghost use Rattle.records.specs.Meaning.{row_instance};
ghost use Rattle.written.specs.Rows.{all_below, first_misfit, row_fits, rows_judged};
ghost use Rattle.written.specs.Meaning.{cells_of, rows_list};

use crate::fault::RowsFault;
use crate::list::WrittenList;
use records::{Record, Row};
use sources::MOST_CELLS;

/// The most rows of a written list.
pub const MOST_ROWS: usize = 8192;

impl<'a> WrittenList<'a> {
    /// The list of one cell and no rows.
    pub fn new() -> WrittenList<'a>
        ensures cells { cells_of result ≡ 1 }
        ensures list { rows_list result ≡ [] }
    {
        WrittenList {
            cells: 1,
            rows: &[],
        }
    }

    /// The list of these cells and rows, or the first reason why they are none.
    #[tactic(auto, using(crate::proofs::Rows::all_rows_fit, crate::proofs::Rows::misfit_below))]
    pub fn from_rows(cells: u16, rows: &'a [Row]) -> Result<WrittenList<'a>, RowsFault>
        ensures answer { result_map (λ _. tt) result ≡ rows_judged cells rows.now }
        ensures cells { IfOk result (λ made. cells_of made ≡ cells) }
        ensures list { IfOk result (λ made. rows_list made ≡ map row_instance rows.now) }
    {
        if rows.len() > MOST_ROWS {
            return Err(RowsFault::TooMany);
        }
        if !(1..=MOST_CELLS).contains(&cells) {
            return Err(RowsFault::Cells);
        }
        if let Some(position) = first_misfit(cells, rows) {
            return Err(RowsFault::Misfit { row: position + 1 });
        }
        Ok(WrittenList { cells, rows })
    }

    /// Takes these cells and rows in place of its own; a refusal leaves the list as it was.
    pub fn load(&mut self, cells: u16, rows: &'a [Row]) -> Result<(), RowsFault>
        ensures answer { result ≡ rows_judged cells rows.now }
        ensures cells { cells_of self.new ≡ (if is_ok result then cells else cells_of self.old) }
        ensures list { rows_list self.new ≡ (if is_ok result then map row_instance rows.now else rows_list self.old) }
    {
        *self = WrittenList::from_rows(cells, rows)?;
        Ok(())
    }
}

/// The position of the first row that does not fit.
// The number of cells goes beside the rows: what holds both is the list that is made once they are judged.
fn first_misfit(cells: u16, rows: &[Row]) -> Option<usize>
    ensures { result ≡ first_misfit cells rows.now }
{
    rows.iter().position(|row| !row_fits(cells, row))
}

/// Is this row a record whose cells are below `cells`?
fn row_fits(cells: u16, row: &Row) -> bool
    ensures { result ≡ row_fits cells row.now }
{
    Record::try_from(*row).is_ok_and(|record| {
        record.written() < cells && all_below(cells, record.reads())
    })
}

/// Are all of these below `limit`?
fn all_below(limit: u16, cells: &[u16]) -> bool
    ensures { result ≡ all_below limit cells.now }
{
    cells.iter().all(|&cell| cell < limit)
}
