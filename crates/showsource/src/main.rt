//! Prints what a few sources answer to every question: a written list, and layers over it.
#![tactic(auto)]

use layers::{After, Rounds};
use records::{MOST_READS, Row};
use sources::{Counts, Parts, Source};
use std::fmt::Display;
use std::io;
use std::io::Print;
use written::WrittenList;

/// Rows over cells 0 to 2. The second reads the cell that it writes in two slots, the third in one.
const ROWS: [Row; 4] = [
    Row {
        operator: 0,
        written: 0,
        count: 1,
        reads: [1, 0, 0, 0, 0],
    },
    Row {
        operator: 1,
        written: 1,
        count: 3,
        reads: [1, 1, 2, 0, 0],
    },
    Row {
        operator: 2,
        written: 0,
        count: 2,
        reads: [0, 1, 0, 0, 0],
    },
    Row {
        operator: 3,
        written: 2,
        count: 0,
        reads: [0, 0, 0, 0, 0],
    },
];

/// A row over cells 0 to 3.
const LAST: [Row; 1] = [Row {
    operator: 15,
    written: 3,
    count: 5,
    reads: [0, 1, 2, 0, 3],
}];

/// Prints a space and a number, or a dash where there is none.
fn show_number<N: Display + Drop>(rt: &impl Print, number: Option<N>) -> io::Result<()> {
    match number {
        Some(number) => print!(rt; " {number}"),
        None => print!(rt; " -"),
    }
}

/// Prints what is answered at each number from 0 to the last.
fn show_each<F: Fn(u32) -> Option<u32>>(rt: &impl Print, last: u32, answer: F) -> io::Result<()>
    requires { F.IsAlwaysCallable answer }
{
    for number in 0..=last {
        show_number(rt, answer(number))?;
    }
    Ok(())
}

/// A source, and where its answers are printed.
#[derive(Clone, Copy)]
struct Shown<'a, P, S> {
    rt: &'a P,
    source: &'a S,
}

impl<P: Print, S: Source> Shown<'_, P, S> {
    /// Prints the cell in each slot of the instance at a position.
    fn slots(&self, position: u32) -> io::Result<()> {
        print!(self.rt; ", slots")?;
        for slot in 0..=MOST_READS {
            show_number(self.rt, self.source.cell_at(position, slot))?;
        }
        println!(self.rt)
    }

    /// Prints the instance at a position, as a record and by its parts.
    fn instance(&self, position: u32) -> io::Result<()> {
        match self.source.record_at(position) {
            Some(record) => print!(self.rt; "  {position}: {record}")?,
            None => print!(self.rt; "  {position}: no instance")?,
        }
        if let Some(operator) = self.source.operator_at(position) {
            print!(self.rt; "; operator {operator}")?;
        }
        if let Some(cell) = self.source.written_at(position) {
            print!(self.rt; ", writes {cell}")?;
        }
        if let Some(count) = self.source.count_at(position) {
            print!(self.rt; " at count {count}")?;
        }
        if let Some(reads) = self.source.reads_at(position) {
            print!(self.rt; ", reads {reads}")?;
        }
        self.slots(position)
    }

    /// Prints the writers of a cell from count 0 to the first that has none, its earlier writes before each position and
    /// before the first past the end, and its readers at each version.
    fn cell(&self, cell: u16) -> io::Result<()> {
        let writes = self.source.writes(cell);
        print!(self.rt; "  cell {cell}: written {writes} times, at")?;
        show_each(self.rt, writes, |count| self.source.writer(cell, count))?;
        print!(self.rt; "; earlier")?;
        show_each(self.rt, self.source.length(), |position| {
            Some(self.source.earlier(cell, position))
        })?;
        print!(self.rt; "; readers")?;
        show_each(self.rt, writes, |version| {
            Some(self.source.readers(cell, version))
        })?;
        println!(self.rt; ", in all {}", self.source.read_slots(cell))
    }

    /// Prints the instances, and the first position past them.
    fn instances(&self) -> io::Result<()> {
        for position in 0..=self.source.length() {
            self.instance(position)?;
        }
        Ok(())
    }

    /// Prints all that the source answers.
    fn whole(&self, name: &str) -> io::Result<()> {
        println!(self.rt;
            "{name}: {} cells, {} instances",
            self.source.cells(),
            self.source.length()
        )?;
        self.instances()?;
        for cell in 0..self.source.cells() {
            self.cell(cell)?;
        }
        Ok(())
    }
}

/// Prints all that a source answers.
fn show<S: Source>(rt: &impl Print, name: &str, source: &S) -> io::Result<()> {
    Shown { rt, source }.whole(name)
}

/// Prints what a list of rows answers, the list twice over, and that with another list after it.
fn show_layers(rt: &impl Print, rows: &[Row], last: &[Row]) -> anyhow::Result<()> {
    let (Ok(list), Ok(other)) = (
        WrittenList::from_rows(3, rows),
        WrittenList::from_rows(4, last),
    ) else {
        println!(rt; "these rows are no list")?;
        return Ok(());
    };
    let twice = Rounds::new(list, 2);
    show(rt, "list", &list)?;
    show(rt, "rounds of 2", &twice)?;
    show(rt, "after that another", &After::new(twice, other))?;
    Ok(())
}

fn main(rt: HostRuntime) -> anyhow::Result<()> {
    let (rows, last) = (ROWS, LAST);
    show_layers(&rt, &rows, &last)
}
