//! Why a slot table refuses.

/// Why a slot table refuses a call. A call that is refused changes nothing.
#[derive(Clone, Copy, Debug, PartialEq, Eq)]
pub enum SlotFault {
    /// The address has no slot, and none is free.
    NoFree,
    /// The slot, its state, or a byte that is asked for does not allow it.
    Illegal,
    /// The address is in another slot.
    Held,
}
