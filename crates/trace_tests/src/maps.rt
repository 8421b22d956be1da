//! Every map byte, with enough bytes after it and with one too few.
use crate::cases::CASES;
use std::alloc::Global;
use std::process::Abort;
use std::test::Fail;
use trace::TraceReader;

/// The bytes at the front of `bytes` are refused by this number, and the reader stays where it is.
fn refused(rt: &impl Abort, bytes: &[u8], number: u8) -> Result<(), Fail> {
    let mut reader = TraceReader::new(bytes);
    let answer = reader.next_record();
    assert_eq!(rt;
        answer.map_err(|fault| (fault.number(), fault.place())),
        Err((number, 0))
    );
    assert_eq!(rt; reader.place(), 0);
    Ok(())
}

/// The bytes begin with a record of this size and text.
fn read(rt: &impl Abort, heap: Global, bytes: &[u8], size: usize, text: &str) -> Result<(), Fail> {
    let mut reader = TraceReader::new(bytes);
    // Not by `ok_or`: a `Fail` may not be let go.
    let Some(record) = reader.next_record()? else {
        return Err(Fail::new("no record"));
    };
    assert_eq!(rt; record.to_string(heap)?.as_str(), text);
    assert_eq!(rt; reader.place(), size);
    assert!(rt; size <= bytes.len());
    assert_eq!(rt; reader.record_bytes(), &bytes[0..size]);
    Ok(())
}

#[test]
fn every_map_byte(rt: HostRuntime) -> Result<(), Fail> {
    for (map, case) in (0..=255u8).zip(&CASES) {
        let bytes = [map, 1, 2, 3, 4, 5, 6, 7, 8, 9, 10, 11, 12, 13];
        match *case {
            Err(number) => {
                refused(&rt, &bytes, number)?;
                refused(&rt, &bytes[0..1], number)?;
            }
            Ok((size, text)) => {
                read(&rt, rt.alloc(), &bytes, size, text)?;
                assert!(rt; size > 0 && size <= 14);
                refused(&rt, &bytes[0..size - 1], 44)?;
            }
        }
    }
    Ok(())
}
