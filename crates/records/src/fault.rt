//! The refusals of making a record.
ghost use Rattle.std.specs.Prelude.{◌≡◌};
ghost use Rattle.records.specs.Making.{number_of};

/// Why a record cannot be made.
#[derive(Clone, Copy, Debug, PartialEq, Eq)]
pub enum RecordFault {
    /// The operator is over 15.
    Operator,
    /// There are more than five reads.
    Reads,
}

impl RecordFault {
    /// The number of the refusal, as docs/REFUSALS.md has it.
    // A number for users, and no code for callers: the kind is the enum.
    pub fn number(self) -> u8
        ensures { result ≡ number_of self }
    {
        match self {
            RecordFault::Operator => 45,
            RecordFault::Reads => 46,
        }
    }
}
