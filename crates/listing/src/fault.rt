//! The refusals of listing a trace.
ghost use Rattle.std.specs.Prelude.{◌≡◌, Some};
ghost use Rattle.listing.specs.Lines.{number_of, place_of, refused_text};

use std::fmt;
use trace::ReadFault;

/// The most bytes that a trace has.
pub const MOST_BYTES: usize = 65536;

/// Why a trace is not listed to its end.
#[derive(Clone, Copy, Debug, PartialEq, Eq)]
pub enum ListFault {
    /// The trace has more than `MOST_BYTES` bytes.
    TooLong,
    /// Some bytes form no record.
    Read(ReadFault),
}

impl ListFault {
    /// The number of the refusal, as docs/REFUSALS.md has it.
    // A number for users, and no code for callers: the kind is the enum.
    pub fn number(self) -> u8
        ensures { result ≡ number_of self }
    {
        match self {
            ListFault::TooLong => 48,
            ListFault::Read(fault) => fault.number(),
        }
    }

    /// The place in the trace at which it is refused.
    pub fn place(self) -> usize
        ensures { result ≡ place_of self }
    {
        match self {
            ListFault::TooLong => MOST_BYTES,
            ListFault::Read(fault) => fault.place(),
        }
    }
}

impl fmt::Display for ListFault {
    ghost output = { λ x. Some (refused_text x) };

    fn fmt<W: fmt::Write>(&self, f: &mut fmt::Formatter<W>) -> fmt::Result {
        let number = self.number();
        let place = self.place();
        write!(f, "refused {number} at {place}")
    }
}
