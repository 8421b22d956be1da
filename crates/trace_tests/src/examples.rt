//! Worked examples: records, their shortest spelling, and the listings of short traces.
use listing::Listing;
use records::{Record, Row};
use std::alloc::Global;
use std::process::Abort;
use std::test::Fail;
use trace::{TraceReader, read_trace, write_record};

struct Example {
    operator: u8,
    written: u16,
    reads: &'static [u16],
    bytes: &'static [u8],
}

static EXAMPLES: [Example; 8] = [
    Example {
        operator: 1,
        written: 5,
        reads: &[5],
        bytes: &[0x05, 0x01, 0x05, 0x00],
    },
    Example {
        operator: 0,
        written: 7,
        reads: &[],
        bytes: &[0x02, 0x07, 0x00],
    },
    Example {
        operator: 0,
        written: 2,
        reads: &[2],
        bytes: &[0x04, 0x02, 0x00],
    },
    Example {
        operator: 0,
        written: 0,
        reads: &[1],
        bytes: &[0x06, 0x00, 0x00, 0x01, 0x00],
    },
    Example {
        operator: 15,
        written: 65535,
        reads: &[],
        bytes: &[0x03, 0x0f, 0xff, 0xff],
    },
    Example {
        operator: 1,
        written: 10,
        reads: &[6, 9],
        bytes: &[0x0f, 0x01, 0x0a, 0x00, 0x06, 0x00, 0x09, 0x00],
    },
    Example {
        operator: 2,
        written: 258,
        reads: &[258, 1, 2, 3, 4],
        bytes: &[
            0x7d, 0x02, 0x02, 0x01, 0x01, 0x00, 0x02, 0x00, 0x03, 0x00, 0x04, 0x00,
        ],
    },
    Example {
        operator: 0,
        written: 300,
        reads: &[1, 2, 3, 4, 5],
        bytes: &[
            0x7e, 0x2c, 0x01, 0x01, 0x00, 0x02, 0x00, 0x03, 0x00, 0x04, 0x00, 0x05, 0x00,
        ],
    },
];

/// It is written as its bytes, which read back; a buffer one byte short stays as it is.
fn round_trip(rt: &impl Abort, example: &Example) -> Result<(), Fail> {
    let record = Record::new(example.operator, example.written, example.reads)?;
    let size = example.bytes.len();
    let mut out = [0xee; 16];
    assert_eq!(rt; write_record(&record, &mut out)?, size);
    assert!(rt; size > 0 && size < 16);
    assert_eq!(rt; &out[0..size], example.bytes);
    assert_eq!(rt; out[size], 0xee);
    let mut reader = TraceReader::new(&out);
    assert_eq!(rt; reader.next_record()?, Some(record));
    assert_eq!(rt; reader.place(), size);
    let mut short = [0xee; 16];
    let answer = write_record(&record, &mut short[0..size - 1]);
    assert_eq!(rt; answer.map_err(|fault| fault.number()), Err(47));
    assert_eq!(rt; short, [0xee; 16]);
    Ok(())
}

#[test]
fn shortest_spellings(rt: HostRuntime) -> Result<(), Fail> {
    for example in &EXAMPLES {
        round_trip(&rt, example)?;
    }
    Ok(())
}

/// A trace and the text of its listing. The refusals come in the sequence of their numbers.
static LISTINGS: [(&[u8], &str); 12] = [
    (&[], "0 records\n"),
    (&[0x05, 0x01, 0x05, 0x00], "1: op 1, 5 <- 5\n1 records\n"),
    (&[0x05, 0x00, 0x05, 0x00], "1: op 0, 5 <- 5\n1 records\n"),
    (
        &[0x07, 0x00, 0x05, 0x00, 0x05, 0x00],
        "1: op 0, 5 <- 5\n1 records\n",
    ),
    (
        &[0x02, 0x07, 0x00, 0x06, 0x00, 0x00, 0x01, 0x00],
        "1: op 0, 7 <-\n2: op 0, 0 <- 1\n2 records\n",
    ),
    (
        &[0x05, 0x01, 0x05, 0x00, 0x80],
        "1: op 1, 5 <- 5\nrefused 41 at 4\n",
    ),
    (&[0xff], "refused 41 at 0\n"),
    (&[0x08, 0x00], "refused 42 at 0\n"),
    (&[0x01, 0x01], "refused 43 at 0\n"),
    (
        &[0x02, 0x07, 0x00, 0x02, 0x07],
        "1: op 0, 7 <-\nrefused 44 at 3\n",
    ),
    (&[0x03, 0x10, 0x07], "refused 44 at 0\n"),
    (&[0x03, 0x10, 0x07, 0x00], "refused 45 at 0\n"),
];

/// The bytes are listed as this text.
fn listed(rt: &impl Abort, heap: Global, bytes: &[u8], text: &str) -> Result<(), Fail> {
    assert_eq!(rt; Listing::new(bytes).to_string(heap)?.as_str(), text);
    Ok(())
}

#[test]
fn short_listings(rt: HostRuntime) -> Result<(), Fail> {
    for (bytes, text) in &LISTINGS {
        listed(&rt, rt.alloc(), bytes, text)?;
    }
    Ok(())
}

#[test]
fn the_longest_listing(rt: HostRuntime) -> Result<(), Fail> {
    let mut bytes = vec![in rt.alloc(); 0u8; 65536]?;
    listed(&rt, rt.alloc(), bytes.as_slice(), "refused 43 at 0\n")?;
    bytes.push(0)?;
    listed(&rt, rt.alloc(), bytes.as_slice(), "refused 48 at 65536\n")
}

#[test]
fn a_whole_trace(rt: HostRuntime) -> Result<(), Fail> {
    let bytes = [0x02, 0x07, 0x00, 0x05, 0x01, 0x05, 0x00];
    let records = read_trace(rt.alloc(), &bytes)?;
    assert!(rt; records.len() == 2);
    assert_eq!(rt; records[0], Record::new(0, 7, &[])?);
    assert_eq!(rt; records[1], Record::new(1, 5, &[5])?);
    assert!(rt; read_trace(rt.alloc(), &bytes[0..6]).is_err());
    Ok(())
}

#[test]
fn rows(rt: HostRuntime) -> Result<(), Fail> {
    let record = Record::new(3, 1, &[9])?;
    let row = Row {
        operator: 3,
        written: 1,
        count: 1,
        reads: [9, 7, 7, 7, 7],
    };
    assert_eq!(rt; Record::try_from(row)?, record);
    // What stands past the reads comes back too.
    assert_eq!(rt; Row::from(Record::try_from(row)?).reads, row.reads);
    let other = Row {
        operator: 3,
        written: 1,
        count: 2,
        reads: [9, 7, 7, 7, 7],
    };
    assert_ne!(rt; Record::try_from(other)?, record);
    for (operator, number) in [(16, 45), (15, 46)] {
        let answer = Record::try_from(Row {
            operator,
            written: 0,
            count: 6,
            reads: [0; 5],
        });
        assert_eq!(rt; answer.map_err(|fault| fault.number()), Err(number));
    }
    Ok(())
}

/// The operator of a record that stands with a number.
fn operator_of(entry: (Record, u32)) -> u8 {
    entry.0.operator()
}

#[test]
fn what_holds_a_record_is_copied(rt: HostRuntime) -> Result<(), Fail> {
    let record = Record::new(3, 1, &[9])?;
    let entry = (record, 7);
    assert_eq!(rt; operator_of(entry), operator_of(entry));
    let order = [record; 3];
    assert_eq!(rt; order[1], order[2]);
    Ok(())
}

/// Bytes that form no record, and the debug text of their refusal.
static REFUSED: [(&[u8], &str); 5] = [
    (&[0x80], "Err(HighBit { place: 0 })"),
    (&[0x16], "Err(Gap { place: 0 })"),
    (&[0x00], "Err(NoCell { place: 0 })"),
    (&[0x02, 0x07], "Err(PastEnd { place: 0 })"),
    (&[0x03, 0x10, 0x07, 0x00], "Err(Operator { place: 0 })"),
];

/// The bytes are refused with this debug text.
fn refused(rt: &impl Abort, heap: Global, bytes: &[u8], text: &str) -> Result<(), Fail> {
    let answer = TraceReader::new(bytes).next_record();
    assert_eq!(rt; format!(in heap; "{answer:?}")?.as_str(), text);
    Ok(())
}

#[test]
fn refusals_as_debug_text(rt: HostRuntime) -> Result<(), Fail> {
    for (bytes, text) in &REFUSED {
        refused(&rt, rt.alloc(), bytes, text)?;
    }
    Ok(())
}
