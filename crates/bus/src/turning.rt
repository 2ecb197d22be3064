//! A turn of the track, and its duration.
ghost use Rattle.std.specs.Prelude.{◌≡◌, ◌≤◌, option_map};
ghost use Rattle.layout_core.specs.World.{HaveHeard, IsSameLayout};
ghost use Rattle.station_core.specs.Station.{after_turn, packet_of_turn};
ghost use Rattle.bus.specs.Bus.{duration};
ghost use Rattle.bus.specs.Layout.{turn_of};

use dcc_packet::Packet;
use half_bits::duration_in_micros;
use layout_core::{Event, World};
use station_core::Step;

/// The duration of the shortest turn, in microseconds: that of an idle packet, and of a turn
/// without power.
pub const SHORTEST_TURN: u32 = 5_796;

/// Runs a turn that these decoders miss, and returns its packet: `None` exactly while the power is
/// off.
pub(crate) fn turn(world: &mut World, missed: u64) -> Option<Packet>
    ensures station { world.new.station ≡ after_turn world.old.station }
    ensures packet { result ≡ packet_of_turn world.old.station }
    ensures nodes { HaveHeard world.old.station (turn_of missed) world.old.nodes world.new.nodes }
    ensures same { IsSameLayout world.old world.new }
    ensures shortest { 5796 ≤ duration result }
    ensures longest { duration result ≤ 10740 }
{
    station_core::laws::calls_are_moves();
    layout_core::laws::events_add_up();
    station_core::laws::packets_are_short();
    half_bits::laws::durations_are_bounded();
    match world.step(Event::Turn { missed }) {
        Step::Packet(packet) => Some(packet),
        _ => None,
    }
}

/// Returns the duration of a turn that sends this packet, or none, in microseconds.
pub(crate) fn duration(packet: Option<&Packet>) -> u32
    ensures { result ≡ duration (option_map (λ p. p.now) packet.entry) }
{
    half_bits::laws::durations_are_bounded();
    match packet {
        Some(packet) => duration_in_micros(packet),
        None => SHORTEST_TURN,
    }
}
