//! The parts of a record.
ghost use Rattle.std.specs.Prelude.{◌≡◌, ◌≤◌, length};
ghost use Rattle.records.specs.Meaning.{instance};

use crate::record::Record;

impl Record {
    /// The operator, from 0 to 15.
    pub fn operator(&self) -> u8
        ensures value { result ≡ (instance self.now).operator }
        ensures small { result ≤ 15 }
    {
        self.row.operator
    }

    /// The cell that is written.
    pub fn written(&self) -> u16
        ensures { result ≡ (instance self.now).written }
    {
        self.row.written
    }

    /// The cells that are read, none to five, in order.
    pub fn reads(&self) -> &[u16]
        ensures cells { result.now ≡ (instance self.now).reads }
        ensures few { length result.now ≤ 5 }
    {
        &self.row.reads[..usize::from(self.row.count)]
    }
}
