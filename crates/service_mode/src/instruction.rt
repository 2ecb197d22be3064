//! Instructions of direct mode.
ghost use Rattle.std.specs.Prelude.{◌≡◌, ◌<◌, ◌/◌, ◌%◌, IsTrue};
ghost use Rattle.service_mode.specs.Spelling.{body_of, is_legal, is_same};

/// An instruction of direct mode (S-9.2.3). The address of a variable is one less than its number: 0 to
/// 1023 for CV1 to CV1024.
#[derive(Clone, Copy, PartialEq, Eq)]
pub enum Instruction {
    /// The decoder acknowledges if the variable has this value.
    VerifyByte { address: u16, value: u8 },
    /// The decoder stores this value.
    WriteByte { address: u16, value: u8 },
    /// The decoder acknowledges if a bit of the variable, 0 to 7, is on or off.
    VerifyBit { address: u16, bit: u8, on: bool },
    /// The decoder turns a bit of the variable, 0 to 7, on or off.
    WriteBit { address: u16, bit: u8, on: bool },
}

impl Instruction {
    /// The three bytes before the check.
    pub fn body(self) -> [u8; 3]
        requires { IsTrue (is_legal self) }
        ensures { result ≡ body_of self }
    {
        match self {
            Instruction::VerifyByte { address, value } => {
                [0x74 + high(address), low(address), value]
            }
            Instruction::WriteByte { address, value } => {
                [0x7C + high(address), low(address), value]
            }
            Instruction::VerifyBit { address, bit, on } => {
                [
                    0x78 + high(address),
                    low(address),
                    0xE0 + 8 * u8::from(on) + bit,
                ]
            }
            Instruction::WriteBit { address, bit, on } => {
                [
                    0x78 + high(address),
                    low(address),
                    0xF0 + 8 * u8::from(on) + bit,
                ]
            }
        }
    }

    /// Whether two instructions are the same.
    pub fn is_same(self, other: Instruction) -> bool
        ensures { result ≡ is_same self other }
    {
        self == other
    }
}

/// The high two bits of an address.
fn high(address: u16) -> u8
    requires { address < 1024 }
    ensures { result ≡ address / 256 }
{
    (address / 256) as u8
}

/// The low eight bits of an address.
fn low(address: u16) -> u8
    ensures { result ≡ address % 256 }
{
    (address % 256) as u8
}
