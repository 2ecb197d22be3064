//! What holds of the half-bits of all packets.
ghost use Rattle.std.specs.Prelude.{ℕ, ◌≡◌, ◌≤◌, List, length, IsTrue};
ghost use Rattle.dcc_packet.specs.Packet.{IsPacket, is_checked};
ghost use Rattle.dcc_packet.specs.Sent.{idle_bytes};
ghost use Rattle.dcc_packet.specs.Wave.{IsWave};
ghost use Rattle.half_bits.specs.Halves.{duration_of, halves_of};

use dcc_packet::Packet;

/// No packet with a right check is shorter than an idle one, and none of at most 5 bytes is longer than 15 ones, those of its
/// preamble and the one that closes it, and 45 zeros.
pub fn durations_are_bounded()
    ensures shortest { (packet : List ℕ) → 3 ≤ length packet → IsTrue (is_checked packet)
        → 5796 ≤ duration_of packet }
    ensures shortest_unchecked { (packet : List ℕ) → 3 ≤ length packet → 5124 ≤ duration_of packet }
    ensures longest { (packet : List ℕ) → length packet ≤ 5 → duration_of packet ≤ 10740 }
    ensures idle { duration_of idle_bytes ≡ 5796 }
{}

/// The half-bits of a packet are a wave of it, whether its check is right or wrong: a law, and no code.
#[inline]
#[tactic(auto, using(crate::proofs::Numbers::wave))]
pub fn halves_are_a_wave(packet: &Packet)
    ensures wave { IsWave packet.now (halves_of packet.now) }

    // What the type of a packet says, for a caller that has no other call for it.
    ensures packet { IsPacket packet.now }
{
    // A proof learns what a type keeps from a call that tells it.
    let _ = packet.bytes();
}
