//! Which address is in which slot, to be searched both ways.
ghost use Rattle.std.specs.Prelude.{◌≡◌, ◌≢◌, ℕ, Some, None};
ghost use Rattle.std.specs.FinMap.{get, empty};
ghost use Rattle.slot_table.specs.Entry.{IsSlot};
ghost use Rattle.slot_table.specs.Index.{slot_with, first_free, with_address};

use crate::bits::{least_bit, with_bit, without_bit};
use crate::pairs::{Pair, position};
use arrayvec::ArrayVec;
use std::marker::Model;

// Bits 1 to 119.
const ALL_FREE: u128 = (1 << 120) - 2;

/// The address in each slot that is not free.
#[derive(Drop)]
pub(crate) struct Index {
    // A pair for each slot that is not free, by address.
    pairs: ArrayVec<Pair, 119>,
    // Bit n is set where slot n is free.
    free: u128,
}

impl Model for Index {
    ghost use Rattle.std.specs.Prelude.{ℕ};
    ghost use Rattle.std.specs.Ordering.{nat_cmp};
    ghost use Rattle.std.specs.FinMap.{FinMap, code};
    ghost use Rattle.std.specs.Coded.{coded_ℕ};

    ghost Value = { FinMap nat_cmp ℕ };

    ghost coded = { code coded_ℕ coded_ℕ };

    ghost use Rattle.slot_table.specs.Index.{addresses_of, IsIndex};

    ghost view = { λ p. addresses_of p.pairs.items };

    ghost invariant = { λ p. IsIndex p.pairs.items p.free };
}

impl Index {
    /// All slots are free.
    pub(crate) fn new() -> Self
        ensures { result ≡ empty }
    {
        Index {
            pairs: ArrayVec::new(),
            free: ALL_FREE,
        }
    }

    /// The slot that holds an address.
    pub(crate) fn slot_of(&self, address: u16) -> Option<u8>
        ensures { result ≡ slot_with self.now address }
    {
        match position(self.pairs.as_slice(), address) {
            Ok(k) => Some(self.pairs[k].slot),
            Err(_) => None,
        }
    }

    /// The least free slot.
    pub(crate) fn least_free(&self) -> Option<u8>
        ensures { result ≡ first_free self.now }
    {
        least_bit(self.free)
    }

    /// The slot gets this address, or none, instead of the one that it had.
    pub(crate) fn change(&mut self, slot: u8, old: Option<u16>, new: Option<u16>)
        requires slot { IsSlot slot }
        requires had { get self.old slot ≡ old }
        requires alone { (a m : ℕ) → new ≡ Some a → get self.old m ≡ Some a → m ≡ slot }
        ensures { self.new ≡ with_address self.old slot new }
    {
        if old == new {
            return;
        }
        self.leave(slot, old);
        if let Some(address) = new {
            self.enter(slot, address);
        }
    }

    // The slot, which has this address or none, has none. Its pair is in the list, so the search
    // finds it.
    fn leave(&mut self, slot: u8, old: Option<u16>)
        requires slot { IsSlot slot }
        requires had { get self.old slot ≡ old }
        ensures { self.new ≡ with_address self.old slot None }
    {
        let Some(address) = old else {
            return;
        };
        if let Ok(k) = position(self.pairs.as_slice(), address) {
            self.pairs.remove(k);
            self.free = with_bit(self.free, slot);
        }
    }

    // The slot, which has no address, gets this one, which is in no slot: the search finds where
    // its pair goes.
    fn enter(&mut self, slot: u8, address: u16)
        requires slot { IsSlot slot }
        requires free { get self.old slot ≡ None }
        requires alone { (m : ℕ) → get self.old m ≢ Some address }
        ensures { self.new ≡ with_address self.old slot (Some address) }
    {
        if let Err(k) = position(self.pairs.as_slice(), address) {
            self.pairs.insert(k, Pair { address, slot });
            self.free = without_bit(self.free, slot);
        }
    }
}
