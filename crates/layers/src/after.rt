//! After: one source's list, then another's.
ghost use Rattle.std.specs.Prelude.{◌≡◌, ◌+◌, ◌≤◌, ◌↔◌, IsTrue, max, length};
ghost use Rattle.layers.specs.Lists.{joined};
ghost use Rattle.layers.specs.Sound.{joined_sound};

use records::Record;
use sources::{Counts, MOST_INSTANCES, Source};

/// The first list, then the second; the first alone, where both together exceed 65,535 instances.
// No model: with one, a layer over a source that borrows could not be copied.
#[derive(Clone, Copy)]
pub struct After<A, B> {
    first: A,
    second: B,
}

impl<A, B> After<A, B> {
    /// Puts the list of `second` after that of `first`.
    pub fn new(first: A, second: B) -> After<A, B>
        ensures { result ≡ record { first = first; second = second } }
    {
        After { first, second }
    }
}

impl<A: Source, B: Source> After<A, B> {
    /// Do both lists fit, one after the other?
    fn fits(&self) -> bool
        ensures { IsTrue result
            ↔ (length (A.Source.list self.now.first) + length (B.Source.list self.now.second) ≤ 65535) }
    {
        self.first.length() + self.second.length() <= MOST_INSTANCES
    }
}

/// Every answer is one of the first source, of the second with a shifted number, or the sum of two.
impl<A: Source, B: Source> Source for After<A, B> {
    ghost size = { λ x. max (A.Source.size x.first) (B.Source.size x.second) };

    ghost list = { λ x. joined (A.Source.list x.first) (B.Source.list x.second) };

    ghost sound = { λ x. joined_sound (A.Source.sound x.first) (B.Source.sound x.second) };

    fn cells(&self) -> u16 {
        self.first.cells().max(self.second.cells())
    }

    fn length(&self) -> u32 {
        let length = self.first.length();
        if !self.fits() {
            return length;
        }
        length + self.second.length()
    }

    fn record_at(&self, position: u32) -> Option<Record> {
        let length = self.first.length();
        if position < length {
            return self.first.record_at(position);
        }
        if !self.fits() {
            return None;
        }
        self.second.record_at(position - length)
    }

    fn writer(&self, cell: u16, count: u32) -> Option<u32> {
        let length = self.first.length();
        let writes = self.first.writes(cell);
        if count < writes {
            return self.first.writer(cell, count);
        }
        if !self.fits() {
            return None;
        }
        self.second
            .writer(cell, count - writes)
            .map(|position| length + position)
    }

    fn earlier(&self, cell: u16, position: u32) -> u32 {
        let length = self.first.length();
        let earlier = self.first.earlier(cell, position);
        if position < length || !self.fits() {
            return earlier;
        }
        earlier + self.second.earlier(cell, position - length)
    }

    fn readers(&self, cell: u16, version: u32) -> u32 {
        let readers = self.first.readers(cell, version);
        let writes = self.first.writes(cell);
        if version < writes || !self.fits() {
            return readers;
        }
        readers + self.second.readers(cell, version - writes)
    }
}
