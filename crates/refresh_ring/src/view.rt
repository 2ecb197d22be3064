//! The addresses in the slots.
ghost use Rattle.std.specs.Prelude.{◌≡◌, ℕ, List, length};
ghost use Rattle.refresh_ring.specs.Places.{IsSlot, slot_count};
ghost use Rattle.refresh_ring.specs.Picked.{address_of};

/// Which address is in which slot.
pub trait View {
    /// The address in each of the slots 1 to 119, 0 for a free one.
    ghost addresses: { Self → List ℕ };

    /// The address in a slot, 1 to 119.
    fn address(&self, slot: u8) -> u16
        requires { IsSlot slot }
        ensures { result ≡ address_of (addresses self.now) slot };

    ghost many: { (view : Self) → length (addresses view) ≡ slot_count };
}
