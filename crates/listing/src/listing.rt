//! A trace, listed record by record.
ghost use Rattle.std.specs.Prelude.{◌≡◌, Some};
ghost use Rattle.listing.specs.Lines.{Lists, Suffice, bytes_of, listing};

use crate::fault::{ListFault, MOST_BYTES};
use std::fmt;
use trace::TraceReader;

/// The bytes of a trace. Its text is a line for each record, as `1: op 1, 5 <- 2 4`, and then `N records`, or
/// the refusal of the bytes that come next.
// No model, since a type with a lifetime would lose Copy by it: no plainer than `bytes_of` in specs/, which shows its one field.
#[derive(Clone, Copy, Debug)]
pub struct Listing<'a> {
    bytes: &'a [u8],
}

impl<'a> Listing<'a> {
    /// The listing of these bytes.
    #[tactic(auto, using(crate::proofs::Texts::lists))]
    pub fn new(bytes: &'a [u8]) -> Listing<'a>
        ensures bytes { bytes_of result ≡ bytes.now }
        ensures lists { Lists bytes.now }
    {
        Listing { bytes }
    }

    /// How many bytes from the start of a trace tell its text, however long it is.
    #[tactic(auto, using(crate::proofs::Texts::suffice))]
    pub fn bytes_needed() -> u64
        ensures value { result ≡ 65537 }
        ensures suffice { Suffice result }
    {
        MOST_BYTES as u64 + 1
    }
}

impl fmt::Display for Listing<'_> {
    ghost output = { λ x. Some (listing (bytes_of x)) };

    fn fmt<W: fmt::Write>(&self, f: &mut fmt::Formatter<W>) -> fmt::Result {
        if self.bytes.len() > MOST_BYTES {
            return writeln!(f, "{}", ListFault::TooLong);
        }
        let mut reader = TraceReader::new(self.bytes);
        // Counted by hand: the last line needs the number after the loop, so an enumerated reader would be no plainer.
        let mut count = 0u32;
        loop {
            match reader.next_record() {
                Ok(Some(record)) => {
                    count += 1;
                    writeln!(f, "{count}: {record}")?;
                }
                Ok(None) => return writeln!(f, "{count} records"),
                // By its case: a `From` would serve this line alone, and be no plainer.
                Err(fault) => return writeln!(f, "{}", ListFault::Read(fault)),
            }
        }
    }
}
