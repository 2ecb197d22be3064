//! What OPC_MOVE_SLOTS does: null move, dispatch put, dispatch get, and the move of a slot.
ghost use Rattle.std.specs.Prelude.{◌≡◌, ◌≢◌, IfOk, OnOk, OnErr, true};
ghost use Rattle.slot_table.specs.{is_held};
ghost use Rattle.slot_table.specs.Answers.{GivesSlot};
ghost use Rattle.slot_table.specs.Entry.{IsSlot};
ghost use Rattle.slot_table.specs.Desk.{IsDesk};
ghost use Rattle.slot_table.specs.Reading.{is_placed};
ghost use Rattle.slot_table.specs.Changes.{changed, slot_if};
ghost use Rattle.slot_table.specs.Moves.{after_null_move, after_dispatch_put, dispatch_get_answer, after_dispatch_get, may_move, can_shift, after_shift};

use crate::bytes::is_slot;
use crate::fault::SlotFault;
use crate::table::SlotTable;
use ln_ops::{Row, State};

impl SlotTable {
    /// A move of a slot to itself: the slot, which the call answers, is in use. It waits to be
    /// dispatched if it did.
    ///
    /// Refused as `Illegal` unless the slot is in 1 to 119 and not free.
    pub fn null_move(&mut self, n: u8) -> Result<u8, SlotFault>
        ensures { GivesSlot (slot_if (is_placed self.old n) n) (after_null_move self.old n)
            self.old self.new result }
    {
        self.set_state(n, State::InUse)
    }

    /// Dispatch put: the slot, which the call answers, is common, and is the one that waits to be
    /// dispatched.
    ///
    /// Refused as `Illegal` unless the slot is in 1 to 119 and not free.
    pub fn dispatch_put(&mut self, src: u8) -> Result<u8, SlotFault>
        ensures { GivesSlot (slot_if (is_placed self.old src) src)
            (after_dispatch_put self.old src) self.old self.new result }
    {
        self.set_state(src, State::Common)?;
        self.set_mark(Some(src));
        Ok(src)
    }

    /// Dispatch get: the slot that waits to be dispatched, which the call answers, is in use and
    /// waits no longer.
    ///
    /// Refused as `Illegal` where none waits.
    pub fn dispatch_get(&mut self) -> Result<u8, SlotFault>
        ensures { GivesSlot (dispatch_get_answer self.old.mark) (after_dispatch_get self.old)
            self.old self.new result }
    {
        let Some(n) = self.mark() else {
            return Err(SlotFault::Illegal);
        };
        self.null_move(n)?;
        self.set_mark(None);
        Ok(n)
    }

    // Gives a slot, which the call answers, this state. Refused where it is free.
    fn set_state(&mut self, n: u8, state: State) -> Result<u8, SlotFault>
        requires { is_held state ≡ true }
        ensures { GivesSlot (slot_if (is_placed self.old n) n)
            (changed self.old n (λ e. record e { state = state })) self.old self.new result }
    {
        let row = self.held(n)?;
        self.change(n, Row { state, ..row });
        Ok(n)
    }

    /// Moves the locomotive of a common or idle slot, with all that was asked for it, to a free
    /// slot, which the call answers. It waits to be dispatched there if it did before.
    ///
    /// Refused as `Illegal` unless both slots are in 1 to 119, the one common or idle, the other
    /// free.
    pub fn shift(&mut self, src: u8, dest: u8) -> Result<u8, SlotFault>
        ensures answer { result ≡ slot_if (can_shift self.old src dest) dest }
        ensures source { OnOk result (IsSlot src) }
        ensures apart { OnOk result (src ≢ dest) }
        ensures slot { IfOk result IsSlot }
        ensures after { self.new ≡ after_shift self.old src dest }
        ensures refused { OnErr result (self.new ≡ self.old) }
        ensures desk { IsDesk self.new }
    {
        let row = self.held(src)?;
        if !may_move(row.state) || !is_slot(dest) || self.held(dest).is_ok() {
            return Err(SlotFault::Illegal);
        }
        let marked = self.is_marked(src);
        self.clear(src);
        self.put(dest, row);
        if marked {
            self.set_mark(Some(dest));
        }
        Ok(dest)
    }
}

// Whether a slot in this state may be moved.
fn may_move(state: State) -> bool
    ensures { result ≡ may_move state }
{
    match state {
        State::Common | State::Idle => true,
        State::Free | State::InUse => false,
    }
}
