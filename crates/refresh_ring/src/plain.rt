//! A ring of truth values.
ghost use Rattle.std.specs.Prelude.{◌≡◌, ◌+◌, ◌<◌, ◌≤◌, ℕ, MatchOption, false, replicate};
ghost use Rattle.refresh_ring.specs.Places.{IsRefreshed, last_place, slot_count};

use crate::place::{LAST_PLACE, SLOTS};
use crate::ring::Ring;

/// A truth value for each slot.
#[derive(Clone, Copy)]
pub struct PlainRing {
    slots: [bool; SLOTS as usize],
}

impl Default for PlainRing {
    ghost is_default = { λ ring. ring.slots ≡ replicate slot_count false };

    fn default() -> Self {
        PlainRing::empty()
    }
}

impl Ring for PlainRing {
    ghost slots = { λ ring. ring.slots };

    fn empty() -> Self {
        PlainRing {
            slots: [false; SLOTS as usize],
        }
    }

    fn set(&mut self, slot: u8, on: bool) {
        self.slots[(slot - 1) as usize] = on;
    }

    fn has(&self, slot: u8) -> bool {
        self.slots[(slot - 1) as usize]
    }

    fn next(&self, cursor: u16) -> Option<u16> {
        match self.first_of(cursor + 1, LAST_PLACE + 1) {
            Some(place) => Some(place),
            None => self.first_of(1, cursor + 1),
        }
    }
}

impl PlainRing {
    /// Returns the least refreshed place from `first` on and below `end`.
    fn first_of(&self, first: u16, end: u16) -> Option<u16>
        requires first { 1 ≤ first }
        requires end { end ≤ last_place + 1 }
        ensures { MatchOption result
            ((q : ℕ) → first ≤ q → q < end → ¬ IsRefreshed self.now.slots q)
            (λ p. IsRefreshed self.now.slots p × (first ≤ p) × (p < end)
            × ((q : ℕ) → first ≤ q → q < p → ¬ IsRefreshed self.now.slots q)) }
    {
        for place in first..end {
            if self.slots[(place as usize - 1) % SLOTS as usize] {
                return Some(place);
            }
        }
        None
    }
}
