//! Records from their parts and from rows, and back to rows.
ghost use Rattle.std.specs.Prelude.{◌≡◌, length};
ghost use Rattle.records.specs.Making.{judged, judged_row, result_map};
ghost use Rattle.records.specs.Meaning.{instance, row_held, row_of};

use crate::fault::RecordFault;
use crate::record::Record;
use crate::row::{MOST_READS, Row};

/// The largest operator.
const LAST_OPERATOR: u8 = 15;

impl Record {
    /// The record of these parts; an operator over 15 is refused first, then more than five reads.
    pub fn new(operator: u8, written: u16, reads: &[u16]) -> Result<Record, RecordFault>
        ensures meaning { result_map instance result ≡ judged operator (length reads.now) (record { operator = operator; written = written; reads = reads.now }) }
        ensures row { result_map row_held result ≡ judged operator (length reads.now) (row_of (record { operator = operator; written = written; reads = reads.now })) }
    {
        judge(operator, reads.len())?;
        let mut cells = [0; MOST_READS];
        cells[..reads.len()].copy_from_slice(reads);
        Ok(Record {
            row: Row {
                operator,
                written,
                count: reads.len() as u8,
                reads: cells,
            },
        })
    }
}

/// The record that lies in a row, judged as by `new`. The row is kept whole.
impl TryFrom<Row> for Record {
    type Error = RecordFault;

    ghost try_from_gives = { λ row made. (result_map instance made ≡ judged_row row) × (result_map row_held made ≡ judged row.operator row.count row) };

    fn try_from(row: Row) -> Result<Record, RecordFault> {
        judge(row.operator, usize::from(row.count))?;
        Ok(Record { row })
    }
}

/// The row that the record lies in.
impl From<Record> for Row {
    ghost from_gives = { λ made row. row ≡ row_held made };

    fn from(made: Record) -> Row {
        made.row
    }
}

/// Refuses an operator over 15, then more than five reads.
fn judge(operator: u8, reads: usize) -> Result<(), RecordFault>
    ensures { result ≡ judged operator reads tt }
{
    if operator > LAST_OPERATOR {
        return Err(RecordFault::Operator);
    }
    if reads > MOST_READS {
        return Err(RecordFault::Reads);
    }
    Ok(())
}
