//! A source that is borrowed is a source.
use crate::source::Source;
use records::Record;

/// It means what the source behind it means.
impl<S: Source> Source for &S {
    ghost size = { λ x. S.Source.size x.now };

    ghost list = { λ x. S.Source.list x.now };

    ghost sound = { λ x. S.Source.sound x.now };

    fn cells(&self) -> u16 {
        (**self).cells()
    }

    fn length(&self) -> u32 {
        (**self).length()
    }

    fn record_at(&self, position: u32) -> Option<Record> {
        (**self).record_at(position)
    }

    fn writer(&self, cell: u16, count: u32) -> Option<u32> {
        (**self).writer(cell, count)
    }

    fn earlier(&self, cell: u16, position: u32) -> u32 {
        (**self).earlier(cell, position)
    }

    fn readers(&self, cell: u16, version: u32) -> u32 {
        (**self).readers(cell, version)
    }
}
