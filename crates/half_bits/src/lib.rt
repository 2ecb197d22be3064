//! The half-bits of a DCC packet (NMRA S-9.2): how long the voltage on the track stands one way and
//! then the other (NMRA S-9.1).
//!
//! The tests are in `library_tests/src/test_half_bits.rt`.
#![tactic(auto)]

ghost use Rattle.std.specs.Prelude.{◌≡◌, ◌+◌, ◌*◌, length};
ghost use Rattle.dcc_packet.specs.Packet.{IsPacket};
ghost use Rattle.dcc_packet.specs.Wave.{IsWave};
ghost use Rattle.half_bits.specs.Halves.{halves_of};

mod duration;
pub mod laws;
mod wave;

use dcc_packet::Packet;
pub use duration::duration_in_micros;
pub use laws::{durations_are_bounded, halves_are_a_wave};
pub use wave::Halves;

/// The half-bits of `packet` from its preamble of 14 ones to the one that closes it, in
/// microseconds.
///
/// A one is two halves of 58, a zero two of 100, which each decoder has to take (S-9.1), as it has
/// to take 14 ones before a packet (S-9.2, A). A packet of `b` bytes has `2 * (15 + 9 * b)` of
/// them, 84 to 138.
#[inline]
pub fn halves(packet: &Packet) -> Halves
    ensures items { result ≡ halves_of packet.now }
    ensures wave { IsWave packet.now result }
    ensures length { length result ≡ 2 * (15 + 9 * length packet.now) }

    // What the type of a packet says, for a caller that hands the wave on.
    ensures packet { IsPacket packet.now }
{
    Halves::new(packet)
}
