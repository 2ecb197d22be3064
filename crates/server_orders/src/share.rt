//! The share of packets that a decoder misses.

/// A share of the packets that decoders miss.
#[derive(Drop)]
pub struct Share {
    /// The name of the decoder. Without it the share is that of each decoder that none names.
    pub decoder: Option<String>,
    /// How many of 100 packets it misses, 0 to 99.
    pub lose: u8,
}
