//! The refusals of reading and writing.
ghost use Rattle.std.specs.Prelude.{◌≡◌};
ghost use Rattle.trace.specs.Faults.{number_of, place_of, write_number_of};
ghost use Rattle.trace.specs.declared.fault.TraceFault.TheVariants.{Read, NoMemory};

use std::alloc::{AllocError, AllocFailed};
use std::fmt;

/// Why bytes form no record.
#[derive(Clone, Copy, Debug, PartialEq, Eq)]
pub enum ReadCause {
    /// Bit 7 of the map byte stands.
    HighBit,
    /// The read bits have a gap.
    Gap,
    /// There is neither a written cell nor a read.
    NoCell,
    /// The record runs past the end of the trace.
    PastEnd,
    /// The operator is over 15.
    Operator,
}

/// Bytes that form no record: why, and the place of the map byte.
#[derive(Clone, Copy, PartialEq, Eq)]
pub struct ReadFault {
    pub cause: ReadCause,
    pub place: usize,
}

/// The cause with its place, as `Gap { place: 3 }`.
// By hand, so that the text stays what it was: a derived one would name the struct and both fields.
impl fmt::Debug for ReadFault {
    fn fmt<W: fmt::Write>(&self, f: &mut fmt::Formatter<W>) -> fmt::Result {
        let cause = match self.cause {
            ReadCause::HighBit => "HighBit",
            ReadCause::Gap => "Gap",
            ReadCause::NoCell => "NoCell",
            ReadCause::PastEnd => "PastEnd",
            ReadCause::Operator => "Operator",
        };
        f.debug_struct(cause).field("place", &self.place).finish()
    }
}

impl ReadFault {
    /// The number of the refusal, as docs/REFUSALS.md has it.
    // A number for users, and no code for callers: the kind is the enum.
    pub fn number(self) -> u8
        ensures { result ≡ number_of self }
    {
        match self.cause {
            ReadCause::HighBit => 41,
            ReadCause::Gap => 42,
            ReadCause::NoCell => 43,
            ReadCause::PastEnd => 44,
            ReadCause::Operator => 45,
        }
    }

    /// Where the record begins that is refused.
    pub fn place(self) -> usize
        ensures { result ≡ place_of self }
    {
        self.place
    }
}

/// Why a record cannot be written.
#[derive(Clone, Copy, Debug, PartialEq, Eq)]
pub enum WriteFault {
    /// Fewer bytes are left than the record takes, which is `size`.
    NoRoom { size: usize },
}

impl WriteFault {
    /// The number of the refusal, as docs/REFUSALS.md has it.
    // A number for users, and no code for callers: the kind is the enum.
    pub fn number(self) -> u8
        ensures { result ≡ write_number_of self }
    {
        match self {
            WriteFault::NoRoom { .. } => 47,
        }
    }
}

/// Why a whole trace cannot be read.
#[derive(Clone, Copy, Debug, PartialEq, Eq)]
pub enum TraceFault {
    /// Some bytes form no record.
    Read(ReadFault),
    /// There is no memory for its records.
    NoMemory,
}

// By hand, since contracts name the error that `?` makes of it.
impl From<ReadFault> for TraceFault {
    ghost from_gives = { λ f r. r ≡ Read f };

    fn from(fault: ReadFault) -> TraceFault {
        TraceFault::Read(fault)
    }
}

// Two impls: the library's two errors of want of memory share no trait, and callers may meet either.
impl From<AllocError> for TraceFault {
    ghost from_gives = { λ _ r. r ≡ NoMemory };

    fn from(_: AllocError) -> TraceFault {
        TraceFault::NoMemory
    }
}

impl<T: Drop> From<AllocFailed<T>> for TraceFault {
    ghost from_gives = { λ _ r. r ≡ NoMemory };

    fn from(_: AllocFailed<T>) -> TraceFault {
        TraceFault::NoMemory
    }
}
