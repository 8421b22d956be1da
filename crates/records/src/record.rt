//! A record: a row that passed its tests.
ghost use Rattle.std.specs.Prelude.{◌≤◌};

use crate::row::Row;

mod equality;
mod making;
mod parts;
mod text;

/// It means an instance, which its contracts speak of. The operator is at most 15, and there are at most five reads.
// No model: the row is kept whole, also past its reads, so the instance does not tell it; and what holds a record is copied.
#[derive(Clone, Copy, Debug)]
pub struct Record {
    row: Row,
    ghost operator_fits: { row.operator ≤ 15 },
    ghost reads_fit: { row.count ≤ 5 },
}
