//! The iterator of half-bits.
ghost use Rattle.std.specs.Prelude.{◌≡◌, ◌==◌, ◌≤◌, ◌<◌, ◌^◌, length, not};
ghost use Rattle.std.specs.Int.{bit_at};
ghost use Rattle.dcc_packet.specs.Packet.{IsPacket};
ghost use Rattle.half_bits.specs.Halves.{halves_of, micros};
ghost use Rattle.half_bits.specs.Remaining.{both_halves};

use dcc_packet::Packet;
use std::marker::Model;

/// The microseconds of each half of a one.
const ONE: u16 = 58;

/// The microseconds of each half of a zero.
const ZERO: u16 = 100;

/// The ones of the preamble.
const PREAMBLE: u32 = 14;

/// Room for the zero before a byte and the byte's eight bits.
const BYTE: u64 = 512;

/// The zero before a byte, in that room.
const START: u64 = 256;

/// The zero before a byte and its eight bits.
const BYTE_BITS: u32 = 9;

/// The half-bits of a packet that are still to come, in microseconds.
///
/// It holds the bits of the packet as one number, so that a step is a shift and no byte is looked up. A set bit stands
/// for a zero: then 64 bits are enough, since the ones of the preamble are above the highest of them.
#[derive(Drop)]
pub struct Halves {
    zeros: u64,
    /// The bits of which no half was given.
    bits: u32,
    /// The second half of the bit before them, where it is still to come.
    second: Option<u16>,
}

impl Model for Halves {
    ghost use Rattle.std.specs.Prelude.{ℕ, ◌+◌, ◌≤◌, ◌<◌, ◌^◌, List, is_some, if◌then◌else◌};
    ghost use Rattle.half_bits.specs.Remaining.{remaining};

    ghost Value = { List ℕ };

    ghost view = { λ halves. remaining halves.zeros halves.bits halves.second };

    ghost invariant = { λ halves. (halves.bits + (if is_some halves.second then 1 else 0) ≤ 69)
        × (halves.zeros < 2 ^ 63) };
}

impl Halves {
    #[inline]
    pub(crate) fn new(packet: &Packet) -> Halves
        ensures items { result ≡ halves_of packet.now }
        ensures packet { IsPacket packet.now }
    {
        let (zeros, bits) = number_of(packet);
        Halves {
            zeros,
            bits,
            second: None,
        }
    }

    /// How many are still to come, at most 138.
    #[inline]
    #[tactic(auto, using(crate::proofs::Numbers::length_of_halves))]
    pub fn left(&self) -> u16
        ensures count { result ≡ length self.now }
        ensures most { result ≤ 138 }
    {
        let left = 2 * self.bits as u16;
        match self.second {
            Some(_) => left + 1,
            None => left,
        }
    }
}

impl Iterator for Halves {
    ghost use Rattle.std.specs.Prelude.{ℕ, List};
    ghost use Rattle.std.specs.Iterator.{YieldsFirst, item_count};

    type Item = u16;

    ghost next_gives = { YieldsFirst (λ (left : List ℕ). left) };

    ghost remaining = { item_count (λ (left : List ℕ). left) };

    #[inline]
    #[tactic(auto, using(crate::proofs::Numbers::lowered))]
    fn next(&mut self) -> Option<u16> {
        if let Some(half) = self.second.take() {
            return Some(half);
        }
        if self.bits == 0 {
            return None;
        }
        self.bits -= 1;
        // The highest bit is no zero, and neither is the preamble, above all bits.
        self.second = Some(half_at(self.zeros, self.bits.min(63)));
        self.second
    }
}

/// The bits of a packet and how many they are, with the preamble and the one that closes it.
fn number_of(packet: &Packet) -> (u64, u32)
    ensures items { both_halves result.0 result.1 ≡ halves_of packet.now }
    ensures few { result.1 ≤ 69 }
    ensures room { result.0 < 2 ^ 63 }
    ensures packet { IsPacket packet.now }
{
    let mut zeros: u64 = 0;
    let mut bits = PREAMBLE;
    for byte in packet.bytes() {
        zeros = zeros * BYTE + START + u64::from(!*byte);
        bits += BYTE_BITS;
    }
    // The one that closes the packet.
    (2 * zeros, bits + 1)
}

/// A half of the bit at this place.
#[inline]
fn half_at(zeros: u64, place: u32) -> u16
    requires { place < 64 }
    ensures { result ≡ micros (not (bit_at zeros place == 1)) }
{
    if (zeros >> place) & 1 == 0 { ONE } else { ZERO }
}
