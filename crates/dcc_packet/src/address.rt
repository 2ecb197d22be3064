//! The address of a locomotive decoder.
ghost use Rattle.std.specs.Prelude.{◌≡◌};
ghost use Rattle.dcc_packet.specs.Address.{is_legal};

/// The address of a locomotive decoder (S-9.2.1, address partitions).
#[derive(Clone, Copy, PartialEq, Eq)]
pub enum Address {
    /// One byte on the track: 1 to 127.
    Short(u8),
    /// Two bytes on the track: 0 to 10239.
    Long(u16),
}

impl Address {
    /// Whether a decoder may have this address: short 1 to 127, long 0 to 10239.
    pub fn is_legal(self) -> bool
        ensures { result ≡ is_legal self }
    {
        match self {
            Address::Short(number) => 1 <= number && number <= 127,
            Address::Long(number) => number <= 10239,
        }
    }
}
