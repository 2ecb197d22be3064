//! One event of a station, and its result.
use dcc_packet::Packet;
use ln_ops::Reply;

/// One event of a station.
#[derive(Clone, Copy)]
pub enum Call {
    /// A byte is received on a line.
    Byte { line: u8, byte: u8 },
    /// The track has room for a packet.
    Turn,
}

/// The result of one event.
#[derive(Drop)]
pub enum Step {
    /// A byte without a reply.
    Quiet,
    /// The reply, on the line of the byte.
    Reply(Reply),
    /// The packet that a turn sends.
    Packet(Packet),
    /// A turn while the track has no power.
    Off,
}
