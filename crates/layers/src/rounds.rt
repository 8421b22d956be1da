//! Rounds: a source's list, several times over.
ghost use Rattle.std.specs.Prelude.{◌≡◌, length};
ghost use Rattle.layers.specs.Lists.{in_turn, repeated, turns};
ghost use Rattle.layers.specs.Sound.{repeated_sound};

use records::Record;
use sources::{Counts, MOST_INSTANCES, Source};

/// The list below, `times` times over, or as often as it goes into 65,535 instances.
// No model: with one, a layer over a source that borrows could not be copied.
#[derive(Clone, Copy)]
pub struct Rounds<S> {
    below: S,
    times: u16,
}

impl<S> Rounds<S> {
    /// Repeats the list of `below`.
    pub fn new(below: S, times: u16) -> Rounds<S>
        ensures { result ≡ record { below = below; times = times } }
    {
        Rounds { below, times }
    }
}

impl<S: Source> Rounds<S> {
    /// How often the list below is repeated; an empty list is not.
    fn turns(&self) -> u32
        ensures { result ≡ turns self.now.times (length (S.Source.list self.now.below)) }
    {
        MOST_INSTANCES
            .checked_div(self.below.length())
            .map_or(0, |most| u32::from(self.times).min(most))
    }

    /// The readers of `cell` at this version of the list below, in one turn; none where there is no such turn.
    fn readers_in(&self, turn: u32, cell: u16, version: u32) -> u32
        ensures { result
            ≡ in_turn (turns self.now.times (length (S.Source.list self.now.below))) turn
            cell version (S.Source.list self.now.below) }
    {
        if turn >= self.turns() {
            return 0;
        }
        self.below.readers(cell, version)
    }
}

/// Every answer comes by arithmetic from a few answers below.
impl<S: Source> Source for Rounds<S> {
    ghost size = { λ x. S.Source.size x.below };

    ghost list = { λ x. repeated x.times (S.Source.list x.below) };

    ghost sound = { λ x. repeated_sound x.times (S.Source.sound x.below) };

    fn cells(&self) -> u16 {
        self.below.cells()
    }

    fn length(&self) -> u32 {
        self.turns() * self.below.length()
    }

    fn record_at(&self, position: u32) -> Option<Record> {
        if position >= self.length() {
            return None;
        }
        self.below.record_at(position % self.below.length())
    }

    fn writer(&self, cell: u16, count: u32) -> Option<u32> {
        let length = self.below.length();
        let writes = self.below.writes(cell);
        let turn = count.checked_div(writes)?;
        if turn >= self.turns() {
            return None;
        }
        self.below
            .writer(cell, count % writes)
            .map(|position| turn * length + position)
    }

    fn earlier(&self, cell: u16, position: u32) -> u32 {
        let length = self.below.length();
        // By a test: `checked_div` with `let .. else` answers the same value, and is no plainer.
        if length == 0 {
            return 0;
        }
        let position = position.min(self.length());
        let writes = self.below.writes(cell);
        let rest = self.below.earlier(cell, position % length);
        position / length * writes + rest
    }

    fn readers(&self, cell: u16, version: u32) -> u32 {
        let writes = self.below.writes(cell);
        // By a test: `checked_div` with `let .. else` answers the same value, and is no plainer.
        if writes == 0 {
            return self.turns() * self.below.readers(cell, version);
        }
        let turn = version / writes;
        let readers = self.readers_in(turn, cell, version % writes);
        if turn == 0 || version % writes > 0 {
            return readers;
        }
        // After its last write, the turn before reads this version too.
        readers + self.readers_in(turn - 1, cell, writes)
    }
}
