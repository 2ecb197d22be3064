//! The rows of a picture.
use trace::Seen;

/// The receivers of a packet, or that none was sent, or a message.
#[derive(Clone, Copy, Debug, PartialEq, Eq)]
pub enum Part {
    /// Sent to a locomotive decoder.
    Locomotives,
    /// Sent to an accessory decoder.
    Accessories,
    /// Sent to all decoders, or of an unknown form.
    Everyone,
    /// Sent to none.
    Idle,
    /// No packet: the power is off.
    Unpowered,
    /// No packet: a LocoNet message.
    Messages,
}

/// What a row in the lane of a decoder shows.
#[derive(Clone, Copy)]
pub enum Kind {
    /// The packets to its address or module.
    Packets,
    /// Its speed.
    Speed,
    /// Where it is stopped by a stop.
    Stops,
    /// Where it is stopped by an emergency stop.
    Emergencies,
    /// Its direction.
    Direction,
    /// The function of this number, 0 to 12.
    Function(u8),
    /// The output of this number, 0 to 7.
    Output(u8),
}

/// A row of a picture.
#[derive(Drop)]
pub enum Row {
    /// A part of the strip of packets.
    Strip(Part),
    /// A row in the lane of a decoder, given in the state that was first shown.
    Lane(Seen, Kind),
}
