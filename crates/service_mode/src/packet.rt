//! Packets of service mode.
ghost use Rattle.std.specs.Prelude.{◌≡◌, IsTrue, length};
ghost use Rattle.service_mode.specs.Spelling.{bytes_of, is_legal_packet};

use crate::instruction::Instruction;
use dcc_packet::Packet;

/// A packet of the programming track (S-9.2.3).
#[derive(Clone, Copy, Default, PartialEq, Eq)]
pub enum ServicePacket {
    /// The packet that resets all decoders (S-9.2, baseline packets), and begins service mode.
    #[default]
    Reset,
    /// An instruction of direct mode.
    Direct(Instruction),
}

impl ServicePacket {
    /// The packet as bytes, the check last.
    pub fn packet(self) -> Packet
        requires { IsTrue (is_legal_packet self) }
        ensures { result ≡ bytes_of self }
    {
        let packet = match self {
            ServicePacket::Reset => Packet::of(&[0, 0, 0]),
            ServicePacket::Direct(instruction) => {
                let [first, second, third] = instruction.body();
                Packet::of(&[first, second, third, first ^ second ^ third])
            }
        };
        match packet {
            Some(packet) => packet,
            None => unreachable!(),
        }
    }
}
