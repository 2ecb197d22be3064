//! The rows of a slot table.
ghost use Rattle.std.specs.Prelude.{◌≡◌, replicate};
ghost use Rattle.slot_table.specs.{free_row};
ghost use Rattle.slot_table.specs.Rows.{address_in};

use crate::bytes::is_held;
use ln_ops::Row;

/// The row of each slot, slot 1 first.
pub(crate) type Rows = [Row; 119];

/// Free rows.
pub(crate) fn free_rows() -> Rows
    ensures { result ≡ replicate 119 free_row }
{
    [Row::FREE; 119]
}

/// The address in a row that is not free.
pub(crate) fn address_in(row: Row) -> Option<u16>
    ensures { result ≡ address_in row }
{
    if is_held(row.state) {
        Some(row.address)
    } else {
        None
    }
}
