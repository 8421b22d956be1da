//! Written lists: which rows are refused, and what is then held.
use records::Row;
use sources::Source;
use std::process::Abort;
use std::test::Fail;
use written::{MOST_ROWS, RowsFault, WrittenList};

/// A row that writes cell 0 and reads nothing.
const PLAIN: Row = Row {
    operator: 15,
    written: 0,
    count: 0,
    reads: [9, 9, 9, 9, 9],
};

/// A row that reads five cells.
const FULL: Row = Row {
    operator: 0,
    written: 4,
    count: 5,
    reads: [0, 1, 2, 3, 4],
};

/// The rows of a list, the number of its cells, and the refusal.
#[derive(Clone, Copy)]
struct Judged {
    cells: u16,
    rows: [Row; 3],
    answer: Result<(), RowsFault>,
}

const JUDGED: [Judged; 11] = [
    Judged {
        cells: 1,
        rows: [PLAIN; 3],
        answer: Ok(()),
    },
    Judged {
        cells: 4096,
        rows: [FULL; 3],
        answer: Ok(()),
    },
    Judged {
        cells: 5,
        rows: [FULL; 3],
        answer: Ok(()),
    },
    Judged {
        cells: 0,
        rows: [PLAIN; 3],
        answer: Err(RowsFault::Cells),
    },
    Judged {
        cells: 4097,
        rows: [FULL; 3],
        answer: Err(RowsFault::Cells),
    },
    // A written cell that is not below the number of cells.
    Judged {
        cells: 4,
        rows: [PLAIN, FULL, FULL],
        answer: Err(RowsFault::Misfit { row: 2 }),
    },
    // A read cell that is not, in the last slot.
    Judged {
        cells: 4,
        rows: [
            PLAIN,
            PLAIN,
            Row {
                operator: 0,
                written: 0,
                count: 5,
                reads: [0, 1, 2, 3, 4],
            },
        ],
        answer: Err(RowsFault::Misfit { row: 3 }),
    },
    // The same cell past the reads means nothing.
    Judged {
        cells: 4,
        rows: [
            PLAIN,
            PLAIN,
            Row {
                operator: 0,
                written: 0,
                count: 4,
                reads: [0, 1, 2, 3, 4],
            },
        ],
        answer: Ok(()),
    },
    // An operator over 15.
    Judged {
        cells: 5,
        rows: [
            Row {
                operator: 16,
                written: 0,
                count: 0,
                reads: [0, 0, 0, 0, 0],
            },
            FULL,
            FULL,
        ],
        answer: Err(RowsFault::Misfit { row: 1 }),
    },
    // Six reads.
    Judged {
        cells: 5,
        rows: [
            PLAIN,
            Row {
                operator: 0,
                written: 0,
                count: 6,
                reads: [0, 0, 0, 0, 0],
            },
            FULL,
        ],
        answer: Err(RowsFault::Misfit { row: 2 }),
    },
    // The number of cells comes before the rows.
    Judged {
        cells: 4097,
        rows: [
            Row {
                operator: 16,
                written: 0,
                count: 0,
                reads: [0, 0, 0, 0, 0],
            },
            FULL,
            FULL,
        ],
        answer: Err(RowsFault::Cells),
    },
];

/// A list that holds the first row is given the rows of the case, which follow, and keeps the first where they are refused.
fn judge(rt: &impl Abort, case: &Judged, rows: &[Row]) -> Result<(), Fail> {
    let mut list = WrittenList::new();
    assert!(rt; rows.len() == 4);
    list.load(5, &rows[0..1])?;
    let given = list.load(case.cells, &rows[1..4]);
    assert_eq!(rt; given, case.answer);
    match given {
        Ok(()) => {
            assert_eq!(rt; list.cells(), case.cells);
            assert_eq!(rt; list.length(), 3);
            Ok(())
        }
        Err(fault) => {
            assert_eq!(rt; fault.number(), 22);
            assert_eq!(rt; list.cells(), 5);
            assert_eq!(rt; list.length(), 1);
            assert_eq!(rt; list.readers(4, 0), 1);
            Ok(())
        }
    }
}

#[test]
fn rows_are_judged(rt: HostRuntime) -> Result<(), Fail> {
    let cases = JUDGED;
    for case in &cases {
        let [a, b, c] = case.rows;
        let rows = [FULL, a, b, c];
        judge(&rt, case, &rows)?;
    }
    Ok(())
}

/// 8,192 of the rows are a list, and all 8,193 are refused, before anything else.
fn judge_long(rt: &impl Abort, rows: &[Row]) -> Result<(), Fail> {
    assert!(rt; rows.len() == MOST_ROWS + 1);
    let mut list = WrittenList::new();
    list.load(7, &rows[0..MOST_ROWS])?;
    assert_eq!(rt; list.length(), 8192);
    assert_eq!(rt; list.writer(0, 8191), Some(8191));
    // A record keeps its row whole, also past its reads.
    let last = list.record_at(8191).map(|record| Row::from(record).reads);
    assert_eq!(rt; last, Some([9; 5]));
    assert_eq!(rt;
        list.load(0, &rows[0..MOST_ROWS + 1]),
        Err(RowsFault::TooMany)
    );
    assert_eq!(rt; list.cells(), 7);
    assert_eq!(rt; list.length(), 8192);
    Ok(())
}

#[test]
fn the_longest_list(rt: HostRuntime) -> Result<(), Fail> {
    let rows = [PLAIN; 8193];
    judge_long(&rt, &rows)?;
    let new = WrittenList::new();
    assert_eq!(rt; new.cells(), 1);
    assert_eq!(rt; new.length(), 0);
    assert_eq!(rt; RowsFault::TooMany.number(), 21);
    assert_eq!(rt; RowsFault::TooMany.row(), 0);
    assert_eq!(rt; RowsFault::Cells.row(), 0);
    assert_eq!(rt; RowsFault::Misfit { row: 8192 }.row(), 8192);
    Ok(())
}
