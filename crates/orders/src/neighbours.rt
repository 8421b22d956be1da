//! Neighbours of an order: whether two records conflict, and exchanging two that do not.
ghost use Rattle.std.specs.Prelude.{◌≡◌, ◌+◌, ◌↔◌, List, map, Contains, IsTrue, if◌then◌else◌};
ghost use Rattle.std.specs.List.{swap};
ghost use Rattle.records.specs.Instance.{Instance};
ghost use Rattle.records.specs.Meaning.{instance};
ghost use Rattle.orders.specs.Faithful.{Conflict, Faithful, touched};
ghost use Rattle.orders.specs.Neighbours.{FreeAt};
ghost use Rattle.orders.specs.Theorems.{ExchangeBreaks, ExchangeKeeps};

use records::Record;

/// Does a record write or read a cell?
fn touches(record: &Record, cell: u16) -> bool
    ensures { IsTrue result ↔ Contains (touched (instance «record».now)) cell }
{
    record.written() == cell || record.reads().contains(&cell)
}

/// Does one of two records write a cell that the other reads or writes? Then an order keeps their sequence.
pub fn conflict(first: &Record, second: &Record) -> bool
    ensures { IsTrue result ↔ Conflict (instance first.now) (instance second.now) }
{
    touches(second, first.written()) || touches(first, second.written())
}

/// Exchanges the record at a position and the one after it, where both are there and do not conflict, and answers
/// whether it did. An order that is faithful stays faithful.
#[tactic(auto, using(crate::proofs::Exchanges::exchange_keeps))]
pub fn exchange(order: &mut [Record], at: usize) -> bool
    ensures answer { IsTrue result ↔ FreeAt (map instance order.old) at }
    ensures after { order.new ≡ (if result then swap order.old at (at + 1) else order.old) }
    ensures faithful { (l : List Instance) → Faithful l (map instance order.old) → Faithful l (map instance order.new) }
    ensures free { (x y : Instance) → ExchangeKeeps x y }
    ensures bound { (x y : Instance) → ExchangeBreaks x y }
{
    if at >= order.len().saturating_sub(1) {
        return false;
    }
    if conflict(&order[at], &order[at + 1]) {
        return false;
    }
    order.swap(at, at + 1);
    true
}
