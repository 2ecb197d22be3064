//! Tasks of the programmer.
ghost use Rattle.std.specs.Prelude.{◌≡◌};
ghost use Rattle.programmer.specs.Requests.{is_bit, is_byte, is_write};

/// A task, as its message has it (LocoNet Personal Use Edition 1.0, programmer task start).
#[derive(Clone, Copy, PartialEq, Eq)]
pub struct Task {
    /// PCMD, below 128: read or write, and the mode.
    pub command: u8,
    /// HOPSA, below 128: the high seven bits of an address on the main track. It is returned as it is.
    pub hopsa: u8,
    /// LOPSA, below 128: its low seven bits. It is returned as it is.
    pub lopsa: u8,
    /// TRK, below 128. It is returned as it is.
    pub trk: u8,
    /// The address of the variable, 0 to 1023: one less than its number.
    pub address: u16,
    /// The byte to write. In direct mode by bits, bits 0 to 2 are the number of the bit and bit 3 is its
    /// value, as in the data of the instruction.
    pub value: u8,
}

impl Task {
    /// Whether it is a task of direct mode by bytes, on the programming track.
    pub fn is_byte(self) -> bool
        ensures { result ≡ is_byte self }
    {
        self.command / 4 % 16 == 10
    }

    /// Whether it is a task of direct mode by bits, on the programming track.
    pub fn is_bit(self) -> bool
        ensures { result ≡ is_bit self }
    {
        self.command / 4 % 16 == 2
    }

    /// Whether it is a write, and no read.
    pub fn is_write(self) -> bool
        ensures { result ≡ is_write self }
    {
        self.command / 64 == 1
    }
}
