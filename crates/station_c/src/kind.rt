//! The kinds of events, of answers and of motions, by their numbers in `bindings/station.h`.

/// An event: a byte is received on a line.
pub(crate) const BYTE: u8 = 0;

/// The track has room for a packet.
pub(crate) const TURN: u8 = 1;

/// The receiver of one decoder hears a half-bit that belongs to no packet.
pub(crate) const NOISE: u8 = 2;

/// An answer: nothing.
pub(crate) const QUIET: u8 = 0;

/// A reply, on the line of the byte.
pub(crate) const REPLY: u8 = 1;

/// A packet, on the track.
pub(crate) const PACKET: u8 = 2;

/// A turn while the track has no power.
pub(crate) const OFF: u8 = 3;

/// A motion: stopped, or braking to a stop.
pub(crate) const STOP: u8 = 0;

/// Stopped at once.
pub(crate) const EMERGENCY: u8 = 1;

/// At a step.
pub(crate) const STEP: u8 = 2;
