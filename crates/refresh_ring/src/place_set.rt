//! A set of places, as words of bits.
ghost use Rattle.std.specs.Prelude.{◌≡◌, ◌≤◌, ◌<◌, ◌*◌, ◌==◌, ℕ, true, false, replicate, MatchOption, if◌then◌else◌};
ghost use Rattle.refresh_ring.specs.Places.{IsSlot, IsPlace, slot_of};
ghost use Rattle.refresh_ring.specs.Words.{is_in, bit_of, word_count};

use crate::bits::{has_bit, least_bit_from, with_bit};
use crate::place::{KINDS, LAST_PLACE, SLOTS};
use std::marker::Model;

// As many words as the last place asks for.
const WORDS: u16 = LAST_PLACE / 64 + 1;

/// A set of places. Bit p % 64 of word p / 64 says whether p is in it.
#[derive(Drop)]
pub(crate) struct PlaceSet {
    words: [u64; WORDS as usize],
}

impl Model for PlaceSet {
    ghost use Rattle.std.specs.Prelude.{List, ℕ};

    ghost Value = { List ℕ };

    ghost view = { λ set. set.words };
}

impl PlaceSet {
    // No place is in it.
    pub(crate) fn empty() -> PlaceSet
        ensures { result ≡ replicate word_count 0 }
    {
        PlaceSet {
            words: [0; WORDS as usize],
        }
    }

    // Whether a place is in it.
    #[inline]
    pub(crate) fn has(&self, place: u16) -> bool
        requires { place < 64 * word_count }
        ensures { result ≡ is_in self.now place }
    {
        has_bit(self.words[(place / 64) as usize], u32::from(place % 64))
    }

    // Puts a place in, or takes it out.
    #[inline]
    pub(crate) fn set(&mut self, place: u16, on: bool)
        requires { place < 64 * word_count }
        ensures { (other : ℕ)
            → is_in self.new other ≡ (if other == place then on else is_in self.old other) }
    {
        let index = (place / 64) as usize;
        self.words[index] = with_bit(self.words[index], u32::from(place % 64), on);
    }

    // Puts each place of a slot in, or takes it out.
    pub(crate) fn set_slot(&mut self, slot: u8, on: bool)
        requires { IsSlot slot }
        ensures own { (place : ℕ) → IsPlace place → slot_of place ≡ slot
            → is_in self.new place ≡ on }
        ensures others { (n : ℕ) → ¬ (IsPlace n × (slot_of n ≡ slot))
            → is_in self.new n ≡ is_in self.old n }
    {
        for kind in 0..KINDS {
            self.set(SLOTS * kind + u16::from(slot), on);
        }
    }

    // The least place from this one on.
    #[inline]
    pub(crate) fn least_from(&self, place: u16) -> Option<u16>
        requires { place < 64 * word_count }
        ensures { MatchOption result
            ((q : ℕ) → place ≤ q → q < 64 * word_count → bit_of self.now q ≡ 0)
            (λ p. (place ≤ p) × (p < 64 * word_count) × (bit_of self.now p ≡ 1)
            × ((q : ℕ) → place ≤ q → q < p → bit_of self.now q ≡ 0)) }
    {
        let mut from = place % 64;
        for i in place / 64..WORDS {
            if let Some(bit) = least_bit_from(self.words[i as usize], u32::from(from)) {
                return Some(i * 64 + bit as u16);
            }
            from = 0;
        }
        None
    }
}
