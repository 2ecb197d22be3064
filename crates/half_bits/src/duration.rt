//! How long a packet lasts.
ghost use Rattle.std.specs.Prelude.{◌≡◌, ◌≤◌};
ghost use Rattle.half_bits.specs.Halves.{duration_of};

use crate::halves;
use dcc_packet::Packet;

/// How many microseconds `packet` takes of the track, from the first half of its preamble to the last half of the one that
/// closes it: 5,124 to 12,540, and at least 5,796, those of an idle packet, where its check is right.
#[inline]
pub fn duration_in_micros(packet: &Packet) -> u32
    ensures value { result ≡ duration_of packet.now }
    ensures shortest { 5124 ≤ result }
    ensures longest { result ≤ 12540 }
{
    let mut micros = 0;
    for half in halves(packet) {
        micros += u32::from(half);
    }
    micros
}
