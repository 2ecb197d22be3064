//! The event of a line of `station`, or of the log of `lbserver`.
use trace::{Seen, Turn};

/// The event of a line of `station`, or of the log of `lbserver`.
#[derive(Drop)]
pub enum Event {
    /// A turn sent a packet, or nothing, as the power is off.
    TurnBegan(Turn),
    /// A decoder has this state.
    Shown(Seen),
    /// A LocoNet message, or a reply.
    Message,
}
