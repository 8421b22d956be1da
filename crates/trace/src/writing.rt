//! Writing a record as bytes.
ghost use Rattle.std.specs.Prelude.{◌≡◌, ◌*◌, ◌≤◌, length};
ghost use Rattle.records.specs.Instance.{Recordable};
ghost use Rattle.records.specs.Meaning.{instance};
ghost use Rattle.trace.specs.Layouts.{byte_of, size_of};
ghost use Rattle.trace.specs.Writing.{shortest_fields, shortest, cell_bytes, over, spelled, written_to, write_answer, Shortest, ReadsBack};

use crate::fault::WriteFault;
use crate::layout::Layout;
use records::Record;

/// Writes the shortest spelling of a record at the front of `out`, and answers its length. Later bytes stay.
/// Where there is no room for it, no byte is changed.
pub fn write_record(record: &Record, out: &mut [u8]) -> Result<usize, WriteFault>
    ensures answer { result ≡ write_answer (shortest (instance «record».now)) out.old }
    ensures after { out.new ≡ written_to (shortest (instance «record».now)) out.old }
    ensures shortest { Shortest (instance «record».now) }
    ensures reads_back { ReadsBack (instance «record».now) }
{
    let layout = Layout::shortest(record);
    let size = layout.size();
    if out.len() < size {
        return Err(WriteFault::NoRoom { size });
    }
    layout.write(record, out);
    Ok(size)
}

impl Layout {
    /// The layout of a record's shortest spelling.
    pub(crate) fn shortest(record: &Record) -> Layout
        ensures layout { result ≡ shortest_fields (instance «record».now) }
        ensures recordable { Recordable (instance «record».now) }
    {
        let operator = record.operator() != 0;
        let written = record.reads().first() != Some(&record.written());
        Layout {
            operator,
            written,
            reads: record.reads().len(),
        }
    }

    /// Writes a record of so many reads, in this layout, at the front of `out`.
    fn write(&self, record: &Record, out: &mut [u8])
        requires reads { self.now.reads ≡ length (instance «record».now).reads }
        requires room { size_of self.now ≤ length out.old }
        ensures { out.new ≡ over (spelled self.now (instance «record».now)) out.old }
    {
        out[0] = u8::from(*self);
        if self.operator {
            out[1] = record.operator();
        }
        let first = self.first_cell();
        if self.written {
            write_cells(&mut out[first..], &[record.written()]);
        }
        let second = first + 2 * usize::from(self.written);
        write_cells(&mut out[second..], record.reads());
    }
}

/// The map byte.
impl From<Layout> for u8 {
    ghost from_gives = { λ layout byte. byte ≡ byte_of layout };

    fn from(layout: Layout) -> u8 {
        // A bit for each read, from the lowest up.
        let reads = match layout.reads {
            0 => 0,
            1 => 1,
            2 => 3,
            3 => 7,
            4 => 15,
            _ => 31,
        };
        u8::from(layout.operator) + 2 * u8::from(layout.written) + 4 * reads
    }
}

/// Writes cells at the front of `out`, two bytes to a cell, the low byte first.
fn write_cells(out: &mut [u8], cells: &[u16])
    requires { 2 * length cells.now ≤ length out.old }
    ensures { out.new ≡ over (cell_bytes cells.now) out.old }
{
    // A zip of `chunks_exact_mut(2)` with the cells was tried, and its proof did not close.
    for (k, cell) in cells.iter().enumerate() {
        out[2 * k..2 * k + 2].copy_from_slice(&cell.to_le_bytes());
    }
}
