//! A turn, as a line says it.
use dcc_packet::Packet;

/// A turn: its number, and the packet that it sent.
#[derive(Drop)]
pub struct Turn {
    pub number: u64,
    /// `None` if the turn sent nothing, as the power was off.
    pub packet: Option<Packet>,
}
