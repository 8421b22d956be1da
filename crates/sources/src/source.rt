//! What a source means, and the questions that it answers.
ghost use Rattle.std.specs.Prelude.{◌≡◌, ℕ, List, length};
ghost use Rattle.std.specs.List.{slice_get};
ghost use Rattle.std.specs.Option.{option_map};
ghost use Rattle.records.specs.Instance.{Instance};
ghost use Rattle.records.specs.Meaning.{instance};
ghost use Rattle.sources.specs.Questions.{earlier, readers, writer};
ghost use Rattle.sources.specs.Sound.{Sound};

use records::Record;

/// The most cells that a source has.
pub const MOST_CELLS: u16 = 4096;

/// The most instances that a source has.
pub const MOST_INSTANCES: u32 = 65535;

/// A number of cells and a list of instances. No question refuses or alters anything.
pub trait Source {
    /// The number of cells.
    ghost size: { Self → ℕ };

    /// The instances, in sequence.
    ghost list: { Self → List Instance };

    /// Every source shows this, and code over any source may use it.
    ghost sound: { (s : Self) → Sound (size s) (list s) };

    /// The number of cells, 1 to 4,096.
    fn cells(&self) -> u16
        ensures { result ≡ size self.now };

    /// How many instances there are, at most 65,535.
    fn length(&self) -> u32
        ensures { result ≡ length (list self.now) };

    /// The instance at a position, counted from 0, as a record.
    fn record_at(&self, position: u32) -> Option<Record>
        ensures { option_map instance result ≡ slice_get (list self.now) position };

    /// The position of the instance that writes `cell` after exactly `count` earlier ones wrote it.
    fn writer(&self, cell: u16, count: u32) -> Option<u32>
        ensures { result ≡ writer cell count (list self.now) };

    /// How many of the first `position` instances write `cell`; of all, where there are fewer.
    fn earlier(&self, cell: u16, position: u32) -> u32
        ensures { result ≡ earlier cell position (list self.now) };

    /// How many read slots hold `cell`, over the instances before which exactly `version` instances write it.
    fn readers(&self, cell: u16, version: u32) -> u32
        ensures { result ≡ readers cell version (list self.now) };
}
