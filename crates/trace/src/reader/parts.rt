//! Where a reader stands.
ghost use Rattle.std.specs.Prelude.{◌≡◌};
ghost use Rattle.trace.specs.Reader.{cursor, spelling};

use crate::reader::TraceReader;

impl<'a> TraceReader<'a> {
    /// A reader at the start of a trace.
    pub fn new(bytes: &'a [u8]) -> TraceReader<'a>
        ensures { cursor result ≡ record { bytes = bytes.now; start = 0; place = 0 } }
    {
        TraceReader {
            bytes,
            start: 0,
            place: 0,
        }
    }

    /// The place up to which records have been read.
    pub fn place(&self) -> usize
        ensures { result ≡ (cursor self.now).place }
    {
        self.place
    }

    /// The bytes of the record that was read last, as that part of the trace; none before the first.
    pub fn record_bytes(&self) -> &'a [u8]
        ensures { result.now ≡ spelling (cursor self.now) }
    {
        &self.bytes[self.start..self.place]
    }
}
