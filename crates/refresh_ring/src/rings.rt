//! Both rings, after the same calls.
ghost use Rattle.std.specs.Prelude.{◌≡◌, ◌↔◌, ℕ, true};
ghost use Rattle.std.specs.List.{All};
ghost use Rattle.refresh_ring.specs.Places.{IsSlot, is_refreshed};
ghost use Rattle.refresh_ring.specs.Calls.{IsLastOn};

use crate::bit_ring::BitRing;
use crate::plain::PlainRing;
use crate::ring::Ring;

/// Returns both rings after these calls of `set`, each of a slot, 1 to 119, on empty ones: in each
/// exactly those slots are refreshed whose last pair is true. So, by the law of the ring, `has` and
/// `next` return the same.
pub fn both(calls: &[(u8, bool)]) -> (PlainRing, BitRing)
    requires { All (λ call. IsSlot call.0) calls.now }
    ensures plain { (slot : ℕ) → (is_refreshed (⟦<PlainRing as Ring>⟧.slots result.0) slot ≡ true)
        ↔ IsLastOn slot calls.now }
    ensures bits { (slot : ℕ) → (is_refreshed (⟦<BitRing as Ring>⟧.slots result.1) slot ≡ true)
        ↔ IsLastOn slot calls.now }
{
    (after_calls(calls), after_calls(calls))
}

// The ring that the calls make of an empty one.
fn after_calls<R: Ring>(calls: &[(u8, bool)]) -> R
    requires { All (λ call. IsSlot call.0) calls.now }
    ensures { (slot : ℕ) → (is_refreshed (R.slots result) slot ≡ true) ↔ IsLastOn slot calls.now }
{
    let mut ring = R::empty();
    for &(slot, on) in calls {
        ring.set(slot, on);
    }
    ring
}
