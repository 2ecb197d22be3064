//! Whole messages: sending one to the station of a layout, and copying one.
ghost use Rattle.std.specs.Prelude.{◌≡◌, ℕ, Some, option_map};
ghost use Rattle.ln_ops.specs.Reply.{reply_bytes};
ghost use Rattle.layout_core.specs.World.{HaveHeard, IsSameLayout};
ghost use Rattle.station_core.specs.Station.{after_message, answer_to_message};
ghost use Rattle.bus.specs.Layout.{bytes_on};

use layout_core::World;
use ln_frame::Msg;
use ln_ops::to_msg;

/// Lets the station carry out a message, as if its bytes came on any line that holds no unfinished
/// message, and returns the station's reply. No decoder changes.
pub(crate) fn send(world: &mut World, message: &Msg) -> Option<Msg>
    ensures station { world.new.station ≡ after_message world.old.station (Some message.now) }
    ensures reply { result
        ≡ option_map reply_bytes (answer_to_message world.old.station (Some message.now)) }
    ensures nodes { (line : ℕ) → HaveHeard world.old.station (bytes_on line message.now)
        world.old.nodes world.new.nodes }
    ensures same { IsSameLayout world.old world.new }
{
    match world.message(message) {
        Some(reply) => Some(to_msg(&reply)),
        None => None,
    }
}

/// Returns a copy of a message.
pub(crate) fn copied(message: &Msg) -> Msg
    ensures { result ≡ message.now }
{
    match Msg::whole(message.bytes()) {
        Some(message) => message,
        None => unreachable!(),
    }
}
