//! What is drawn from the programming track.

/// What is drawn from the track while a packet is sent, and after it until the next.
#[derive(Clone, Copy)]
pub enum Load {
    /// No decoder is on the track.
    Empty,
    /// A decoder is, and acknowledges the packet or does not (S-9.2.3, basic acknowledgment).
    Decoder { acknowledged: bool },
}
