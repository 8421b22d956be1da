//! Records are equal exactly when they mean the same instance.
ghost use Rattle.std.specs.Prelude.{◌≡◌, ◌↔◌, IsTrue};
ghost use Rattle.std.specs.Cmp.Rules.{comparing};
ghost use Rattle.std.specs.Ordering.{on};
ghost use Rattle.std.proofs.Common.{rules};
ghost use Rattle.records.specs.Equality.{SameExact, same_instance};
ghost use Rattle.records.specs.Meaning.{instance};

use crate::record::Record;

// By hand, since a derive would compare what stands past the reads, and its three clauses have no place on one.
impl PartialEq for Record {
    ghost eq = { on instance same_instance };

    ghost laws = { Prim.search (comparing, rules) };

    fn eq(&self, other: &Record) -> bool
        ensures gives { result ≡ same_instance (instance self.now) (instance other.now) }
        ensures equal { IsTrue result ↔ (instance self.now ≡ instance other.now) }
        ensures exact { SameExact }
    {
        self.operator() == other.operator()
            && self.written() == other.written()
            && self.reads() == other.reads()
    }
}

impl Eq for Record {
    ghost laws = { Prim.search (comparing, rules) };
}
