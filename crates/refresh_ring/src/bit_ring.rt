//! A ring of words of bits.
ghost use Rattle.std.specs.Prelude.{◌≡◌, false, replicate};
ghost use Rattle.refresh_ring.specs.Places.{slot_count};

use crate::place_set::PlaceSet;
use crate::ring::Ring;
use std::marker::Model;

/// A bit for each place: those of a slot say the same.
#[derive(Drop)]
pub struct BitRing {
    places: PlaceSet,
}

impl Model for BitRing {
    ghost use Rattle.std.specs.Prelude.{List, Bool};
    ghost use Rattle.refresh_ring.specs.Words.{slots_in, IsSpread};

    ghost Value = { List Bool };

    ghost view = { λ ring. slots_in ring.places };

    ghost invariant = { λ ring. IsSpread ring.places };
}

impl Default for BitRing {
    fn default() -> Self
        ensures { result ≡ replicate slot_count false }
    {
        BitRing::empty()
    }
}

impl Ring for BitRing {
    ghost slots = { λ ring. ring };

    fn empty() -> Self {
        BitRing {
            places: PlaceSet::empty(),
        }
    }

    fn set(&mut self, slot: u8, on: bool) {
        // Most calls say what holds already.
        if self.has(slot) == on {
            return;
        }
        self.places.set_slot(slot, on);
    }

    fn has(&self, slot: u8) -> bool {
        self.places.has(u16::from(slot))
    }

    fn next(&self, cursor: u16) -> Option<u16> {
        match self.places.least_from(cursor + 1) {
            Some(place) => Some(place),
            None => self.places.least_from(0),
        }
    }
}
