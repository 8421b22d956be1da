//! Layers over layers, against the same list written out.
use crate::compared::same;
use layers::{After, Rounds};
use records::Row;
use sources::Source;
use std::process::Abort;
use std::test::Fail;
use written::WrittenList;

/// Cell 1 gets the sum of itself, twice, and cell 0.
const OWN: Row = Row {
    operator: 1,
    written: 1,
    count: 3,
    reads: [1, 1, 0, 7, 7],
};

/// Cell 0 gets cell 1.
const COPY: Row = Row {
    operator: 0,
    written: 0,
    count: 1,
    reads: [1, 7, 7, 7, 7],
};

/// Cell 2 gets cell 0, five times.
const FIVE: Row = Row {
    operator: 4,
    written: 2,
    count: 5,
    reads: [0, 0, 0, 0, 0],
};

/// Cell 0 is set.
const SET: Row = Row {
    operator: 2,
    written: 0,
    count: 0,
    reads: [7, 7, 7, 7, 7],
};

/// Cell `to` gets cell `from`.
// Like a row of the example in `orders`, but with other cells past its read, on purpose.
fn copy(to: u16, from: u16) -> Row {
    Row {
        operator: 0,
        written: to,
        count: 1,
        reads: [from, 7, 7, 7, 7],
    }
}

/// Layers three deep over borrowed sources, against the list that they mean.
fn check_deep<A, B, P>(rt: &impl Abort, a: &A, b: &B, plain: &P) -> Result<(), Fail>
where
    A: Source,
    B: Source,
    P: Source,
{
    let both = After::new(a, b);
    let layered = After::new(Rounds::new(both, 2), Rounds::new(b, 2));
    assert_eq!(rt; layered.cells(), a.cells().max(b.cells()));
    same(rt, &layered, plain)
}

/// The first two rows, the three after them, and all that these mean in layers.
fn check_rows(rt: &impl Abort, rows: &[Row]) -> Result<(), Fail> {
    assert!(rt; rows.len() == 21);
    let a = WrittenList::from_rows(2, &rows[0..2])?;
    let b = WrittenList::from_rows(3, &rows[2..5])?;
    let plain = WrittenList::from_rows(3, &rows[5..21])?;
    check_deep(rt, &a, &b, &plain)
}

#[test]
fn three_deep(rt: HostRuntime) -> Result<(), Fail> {
    let rows = [
        OWN, COPY, FIVE, SET, COPY, OWN, COPY, FIVE, SET, COPY, OWN, COPY, FIVE, SET, COPY, FIVE,
        SET, COPY, FIVE, SET, COPY,
    ];
    check_rows(&rt, &rows)
}

#[test]
fn a_shift_twice_over(rt: HostRuntime) -> Result<(), Fail> {
    // Cells 0, 1 and 2 get cells 1, 2 and 3.
    let rows = [copy(0, 1), copy(1, 2), copy(2, 3)];
    let list = WrittenList::from_rows(4, &rows)?;
    assert_eq!(rt; list.cells(), 4);
    assert_eq!(rt; list.length(), 3);
    let twice = Rounds::new(list, 2);
    assert_eq!(rt; twice.length(), 6);
    assert_eq!(rt; twice.readers(1, 0), 1);
    assert_eq!(rt; twice.readers(1, 1), 1);
    assert_eq!(rt; twice.readers(1, 2), 0);
    assert_eq!(rt; twice.writer(0, 1), Some(3));
    Ok(())
}

/// A layer over a list that borrows its rows is copied, and each copy is used.
fn check_copied(rt: &impl Abort, list: WrittenList) -> Result<(), Fail> {
    let twice = Rounds::new(list, 2);
    let both = After::new(twice, twice);
    same(rt, &After::new(both, both), &Rounds::new(list, 8))
}

#[test]
fn copied_layers(rt: HostRuntime) -> Result<(), Fail> {
    let rows = [OWN, COPY, FIVE];
    let list = WrittenList::from_rows(3, &rows)?;
    check_copied(&rt, list)
}

#[test]
fn few_and_many_rounds(rt: HostRuntime) -> Result<(), Fail> {
    let rows = [OWN, COPY, FIVE];
    let list = WrittenList::from_rows(3, &rows)?;
    let none = WrittenList::new();
    same(&rt, &Rounds::new(list, 0), &none)?;
    same(&rt, &Rounds::new(list, 1), &list)?;
    // 65,535 instances are 21,845 rounds of three.
    let most = Rounds::new(list, 65535);
    same(&rt, &most, &Rounds::new(list, 21845))?;
    assert_eq!(rt; most.length(), 65535);
    assert_eq!(rt; most.writer(2, 21844), Some(65534));
    assert_eq!(rt; most.writer(2, 21845), None);
    assert_eq!(rt; most.earlier(2, 65534), 21844);
    assert_eq!(rt; most.readers(0, 21845), 5);
    assert_eq!(rt; most.readers(0, 21846), 0);
    // 10,922 rounds of six are 65,532 instances, and one round more would be too many.
    let six = Rounds::new(After::new(list, list), 65535);
    assert_eq!(rt; six.length(), 65532);
    Ok(())
}

/// A list without instances, in layers alone and with another list.
fn check_empty(rt: &impl Abort, none: WrittenList, list: WrittenList) -> Result<(), Fail> {
    same(rt, &Rounds::new(none, 65535), &none)?;
    same(rt, &After::new(none, none), &none)?;
    same(rt, &After::new(list, none), &list)?;
    same(rt, &After::new(Rounds::new(none, 3), list), &list)
}

#[test]
fn empty_lists(rt: HostRuntime) -> Result<(), Fail> {
    let none = WrittenList::new();
    let rows = [OWN, COPY];
    let list = WrittenList::from_rows(2, &rows)?;
    check_empty(&rt, none, list)
}

#[test]
fn two_lists_that_just_fit(rt: HostRuntime) -> Result<(), Fail> {
    let (one, two) = ([SET], [FIVE]);
    let set = WrittenList::from_rows(1, &one)?;
    let five = WrittenList::from_rows(4, &two)?;
    let fits = After::new(Rounds::new(set, 65534), five);
    assert_eq!(rt; fits.length(), 65535);
    assert_eq!(rt; fits.cells(), 4);
    assert_eq!(rt; fits.writer(2, 0), Some(65534));
    assert_eq!(rt; fits.readers(0, 65534), 5);
    let alone = After::new(Rounds::new(set, 65535), five);
    same(&rt, &alone, &Rounds::new(set, 65535))?;
    assert_eq!(rt; alone.cells(), 4);
    assert_eq!(rt; alone.readers(0, 65535), 0);
    Ok(())
}
