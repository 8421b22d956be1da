//! What a written list answers: each question walks the rows at most once.
ghost use Rattle.std.specs.Prelude.{◌≡◌, ◌≤◌};
ghost use Rattle.records.specs.Meaning.{row_instance};
ghost use Rattle.sources.specs.Questions.{slots_of};
ghost use Rattle.written.specs.Sound.{rows_sound};
ghost use Rattle.written.specs.Meaning.{cells_of, rows_list};

use crate::list::WrittenList;
use records::{Record, Row};
use sources::Source;

/// Its list is what the rows mean, in sequence.
impl Source for WrittenList<'_> {
    ghost size = { cells_of };

    ghost list = { rows_list };

    ghost sound = { rows_sound };

    fn cells(&self) -> u16 {
        self.cells
    }

    #[tactic(auto, using(crate::proofs::Rows::row_steps))]
    fn length(&self) -> u32 {
        self.rows.len() as u32
    }

    #[tactic(auto, using(crate::proofs::Rows::row_gets))]
    fn record_at(&self, position: u32) -> Option<Record> {
        let row = self.rows.get(position as usize)?;
        Record::try_from(*row).ok()
    }

    fn writer(&self, cell: u16, count: u32) -> Option<u32> {
        // `scan` and `position`, and no `filter` and `nth`: the compiler makes one loop of them, and not two.
        self.rows
            .iter()
            .scan(count, |left, row| {
                if row.written != cell {
                    return Some(false);
                }
                let found = *left == 0;
                *left = left.saturating_sub(1);
                Some(found)
            })
            .position(|found| found)
            .map(|position| position as u32)
    }

    fn earlier(&self, cell: u16, position: u32) -> u32 {
        // A sum, and no `filter` and `count`: the compiler makes it without branches.
        self.rows
            .iter()
            .take(position as usize)
            .map(|row| u32::from(row.written == cell))
            .sum()
    }

    #[tactic(auto, using(crate::proofs::Rows::row_steps), unfolding(sources::specs::Questions::readers, sources::specs::Numbers::total))]
    fn readers(&self, cell: u16, version: u32) -> u32 {
        // A `for` over the rows, and no chain: `scan` would carry `seen` in a closure, and the sum would be the longer line.
        let mut seen = 0;
        let mut readers = 0;
        for row in self.rows {
            if seen == version {
                readers += count_slots(row, cell);
            }
            if row.written == cell {
                seen += 1;
            }
        }
        readers
    }
}

/// How many read slots of this row hold `cell`.
fn count_slots(row: &Row, cell: u16) -> u32
    ensures held { result ≡ slots_of cell (row_instance row.now) }
    ensures few { result ≤ 5 }
{
    // A sum, as in `earlier`.
    row.reads
        .iter()
        .take(usize::from(row.count))
        .map(|&read| u32::from(read == cell))
        .sum()
}
