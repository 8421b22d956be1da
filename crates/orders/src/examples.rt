//! A worked example, and laws of faithful orders over every list.
ghost use Rattle.std.specs.Prelude.{◌≡◌, [], ◌∷◌, map};
ghost use Rattle.records.specs.Doing.{leaves};
ghost use Rattle.records.specs.Meaning.{row_instance};
ghost use Rattle.orders.specs.Example.{copy, first_read, small, start};
ghost use Rattle.orders.specs.Theorems.{OrdersCompose, OrdersTurn, OwnOrder};

use records::Row;

/// The row that writes one cell from another, by operator 0.
// A test of sources has a row like it, with other cells past its read on purpose.
fn copy_row(to: u16, from: u16) -> Row
    ensures { row_instance result ≡ copy to from }
{
    let reads = [from, 0, 0, 0, 0];
    Row {
        operator: 0,
        written: to,
        count: 1,
        reads,
    }
}

/// The instances of the example: two read cell 0, then one writes it. The clauses `own`, `compose` and `turn` are over every list.
pub fn instances() -> [Row; 3]
    ensures rows { map row_instance result ≡ small }
    ensures store { leaves first_read (map row_instance result) start ≡ 8 ∷ 5 ∷ 5 ∷ 8 ∷ [] }
    ensures own { OwnOrder }
    ensures compose { OrdersCompose }
    ensures turn { OrdersTurn }
{
    [copy_row(1, 0), copy_row(2, 0), copy_row(0, 3)]
}
