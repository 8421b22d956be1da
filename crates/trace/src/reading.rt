//! Reading the record at the front of some bytes.
ghost use Rattle.std.specs.Prelude.{◌≡◌, ◌+◌, ◌*◌, ◌≤◌, length, take};
ghost use Rattle.std.specs.Option.{option_map};
ghost use Rattle.records.specs.Making.{result_map};
ghost use Rattle.records.specs.Meaning.{instance};
ghost use Rattle.trace.specs.Layouts.{bit, cells_of, size_of};
ghost use Rattle.trace.specs.Reading.{cell_in, cells_in, layout_at, piece, read_at, record_at};

use crate::fault::{ReadCause, ReadFault};
use crate::layout::Layout;
use records::{MOST_READS, Record, Row};

/// The record at the front of some bytes, and how many of them it takes.
#[derive(Clone, Copy)]
pub(crate) struct Front {
    pub(crate) found: Record,
    pub(crate) size: usize,
}

/// The layout that a map byte tells.
impl TryFrom<u8> for Layout {
    type Error = ReadCause;

    ghost try_from_gives = { λ byte made. made ≡ layout_at byte };

    fn try_from(byte: u8) -> Result<Layout, ReadCause> {
        // Bit 7.
        if byte >= 128 {
            return Err(ReadCause::HighBit);
        }
        // Bits 2 to 6, from the lowest up.
        let reads = match byte / 4 {
            0 => 0,
            1 => 1,
            3 => 2,
            7 => 3,
            15 => 4,
            31 => 5,
            _ => return Err(ReadCause::Gap),
        };
        // Bit 1, and below it bit 0.
        let written = byte / 2 % 2 == 1;
        let operator = byte % 2 == 1;
        if !written && reads == 0 {
            return Err(ReadCause::NoCell);
        }
        Ok(Layout {
            operator,
            written,
            reads,
        })
    }
}

impl Layout {
    /// How many cells stand in a record of this layout.
    fn cells(&self) -> usize
        ensures count { result ≡ cells_of self.now }
        ensures few { result ≤ 6 }
    {
        usize::from(self.written) + self.reads
    }

    /// Where its cells begin, after the map byte and the operator.
    pub(crate) fn first_cell(&self) -> usize
        ensures { result ≡ 1 + bit self.now.operator }
    {
        1 + usize::from(self.operator)
    }

    /// How many bytes a record of this layout has.
    pub(crate) fn size(&self) -> usize
        ensures { result ≡ size_of self.now }
    {
        self.first_cell() + 2 * self.cells()
    }

    /// The record of this layout at the front of `bytes`.
    pub(crate) fn record(&self, bytes: &[u8]) -> Result<Record, ReadCause>
        ensures { result_map instance result ≡ record_at bytes.now self.now }
    {
        if bytes.len() < self.size() {
            return Err(ReadCause::PastEnd);
        }
        let operator = if self.operator { bytes[1] } else { 0 };
        let first = self.first_cell();
        let written = read_cell(&bytes[first..]);
        let second = first + 2 * usize::from(self.written);
        let mut reads = [0; MOST_READS];
        read_cells(&bytes[second..], &mut reads[..self.reads]);
        let row = Row {
            operator,
            written,
            count: self.reads as u8,
            reads,
        };
        Record::try_from(row).map_err(|_| ReadCause::Operator)
    }
}

/// The cell in the first two bytes, the low byte first.
fn read_cell(bytes: &[u8]) -> u16
    requires { 2 ≤ length bytes.now }
    ensures { result ≡ cell_in bytes.now }
{
    u16::from_le_bytes([bytes[0], bytes[1]])
}

/// Fills `cells` with the cells at the front of some bytes.
fn read_cells(bytes: &[u8], cells: &mut [u16])
    requires { 2 * length cells.old ≤ length bytes.now }
    ensures { cells.new ≡ cells_in (length cells.old) bytes.now }
{
    // A zip with `chunks_exact(2)` was tried, and its proof did not close.
    for (k, cell) in cells.iter_mut().enumerate() {
        *cell = read_cell(&bytes[2 * k..]);
    }
}

/// The record at the front of `rest`, which lies at `place` in the trace; none where nothing is left.
pub(crate) fn read_front(rest: &[u8], place: usize) -> Result<Option<Front>, ReadFault>
    ensures { result_map (option_map piece) result ≡ read_at place rest.now }
{
    let Some(byte) = rest.first() else {
        return Ok(None);
    };
    let placed = |cause| ReadFault { cause, place };
    let layout = Layout::try_from(*byte).map_err(placed)?;
    let found = layout.record(rest).map_err(placed)?;
    let size = layout.size();
    Ok(Some(Front { found, size }))
}
