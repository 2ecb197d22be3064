//! What holds of every desk, and of every call on it, for the crates above.
ghost use Rattle.std.specs.Prelude.{ℕ};
ghost use Rattle.slot_table.specs.Desk.{Desk, IsDesk};
ghost use Rattle.slot_table.specs.Laws.{LeavesDesk, MarkFollows, OthersStay, OwnSlots, RowsAreLegal};

/// The rows of a desk are legal, no address is in two slots, and the mark names a slot that is not
/// free.
pub fn rows_are_legal()
    ensures { (desk : Desk) → IsDesk desk → RowsAreLegal desk }
{}

/// A call changes only the rows of the slots that it concerns.
pub fn others_stay()
    ensures { (desk : Desk) (m : ℕ) → IsDesk desk → OthersStay desk m }
{}

/// What a call makes of the rows of the slots that it concerns.
pub fn own_slots()
    ensures { (desk : Desk) → IsDesk desk → OwnSlots desk }
{}

/// What a call makes of the mark.
pub fn mark_follows()
    ensures { (desk : Desk) → MarkFollows desk }
{}

/// What the calls make of a desk is a desk.
pub fn leaves_desk()
    ensures { (desk : Desk) → IsDesk desk → LeavesDesk desk }
{}
