//! One event of a layout.

/// One event of a layout.
#[derive(Clone, Copy)]
pub enum Event {
    /// A byte is received on a line of the station.
    Byte { line: u8, byte: u8 },
    /// The track has room for a packet, which node i misses if bit i of `missed` is set.
    Turn { missed: u64 },
    /// A dirty track: the receiver of one node, counted from 0, hears a half-bit of `half`
    /// microseconds that belongs to no packet.
    Noise { node: u8, half: u16 },
}
