//! The law of the refresh ring.
ghost use Rattle.std.specs.Prelude.{◌≡◌, ◌≤◌, ◌-◌, List, Bool, false, replicate, slice_set};
ghost use Rattle.refresh_ring.specs.Places.{IsSlot, IsNext, slot_count, last_place, is_refreshed};

/// The refreshed slots, of which the next place after a cursor can be asked.
///
/// Slot n with kind k, counted from 0, is place 119 * k + n, from 1 to 476. A place is refreshed
/// where its slot is.
pub trait Ring: Drop {
    /// For each of the slots 1 to 119, whether it is refreshed.
    ghost slots: { Self → List Bool };

    /// No slot is refreshed.
    fn empty() -> Self
        ensures { slots result ≡ replicate slot_count false };

    /// Sets whether a slot, 1 to 119, is refreshed from now on.
    fn set(&mut self, slot: u8, on: bool)
        requires { IsSlot slot }
        ensures { slots self.new ≡ slice_set (slots self.old) (slot - 1) on };

    /// Whether a slot, 1 to 119, is refreshed.
    fn has(&self, slot: u8) -> bool
        requires { IsSlot slot }
        ensures { result ≡ is_refreshed (slots self.now) slot };

    /// Returns the least refreshed place above the cursor, which is 0 or a place; if there is none,
    /// the least refreshed place; `None` if nothing is refreshed.
    fn next(&self, cursor: u16) -> Option<u16>
        requires { cursor ≤ last_place }
        ensures { IsNext (slots self.now) cursor result };
}
