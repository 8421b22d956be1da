//! The refusals of making a written list.
ghost use Rattle.std.specs.Prelude.{◌≡◌};
ghost use Rattle.written.specs.Rows.{number_of, row_of};

/// Why rows are no written list.
#[derive(Clone, Copy, Debug, PartialEq, Eq)]
pub enum RowsFault {
    /// There are more than 8,192 rows.
    TooMany,
    /// The number of cells is not 1 to 4,096.
    Cells,
    /// This row, counted from 1, is no record, or has a cell that is not below the number of cells.
    Misfit { row: usize },
}

impl RowsFault {
    /// The number of the refusal, as docs/REFUSALS.md has it.
    // A number for users, and no code for callers: the kind is the enum.
    pub fn number(self) -> u8
        ensures { result ≡ number_of self }
    {
        match self {
            RowsFault::TooMany => 21,
            RowsFault::Cells | RowsFault::Misfit { .. } => 22,
        }
    }

    /// The row that is refused, counted from 1; 0 where it is none of them.
    // A number and no Option: docs/REFUSALS.md gives every refusal of rows a row, and 0 where it is none of them.
    pub fn row(self) -> usize
        ensures { result ≡ row_of self }
    {
        match self {
            RowsFault::TooMany | RowsFault::Cells => 0,
            RowsFault::Misfit { row } => row,
        }
    }
}
