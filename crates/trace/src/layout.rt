//! The layout of a record in bytes: which fields follow its map byte.
use std::marker::Model;

/// An operator byte, the written cell, and none to five reads; at least one cell.
#[derive(Clone, Copy, Debug)]
pub struct Layout {
    pub operator: bool,
    pub written: bool,
    pub reads: usize,
}

impl Model for Layout {
    ghost use Rattle.std.specs.Prelude.{◌+◌, ◌<◌, ◌≤◌};
    ghost use Rattle.trace.specs.Layouts.{Fields, bit};

    ghost Value = { Fields };

    ghost view = { λ y. record { operator = y.operator; written = y.written; reads = y.reads } };

    ghost invariant = { λ y. (y.reads ≤ 5) × (0 < bit y.written + y.reads) };

    ghost inverse = { λ y. record { operator = y.operator; written = y.written; reads = y.reads } };
}
