//! Packets of service mode that are read.
ghost use Rattle.std.specs.Prelude.{◌≡◌, ◌<◌, ℕ, IfSome, IsTrue, option_map, slice_index};
ghost use Rattle.service_mode.specs.declared.packet.ServicePacket.TheVariants.{Direct};
ghost use Rattle.service_mode.specs.Reading.{bit_form_of, instruction_of, packet_of};
ghost use Rattle.service_mode.specs.Spelling.{is_legal_packet};

use crate::instruction::Instruction;
use crate::packet::ServicePacket;

/// Reads the bytes of a packet. Returns `None` if they are no packet of direct mode, or if their check
/// is wrong.
pub fn read(packet: &[u8]) -> Option<ServicePacket>
    ensures value { result ≡ packet_of packet.now }
    ensures legal { IfSome result (λ p. IsTrue (is_legal_packet p)) }
{
    form(packet)
}

/// Reads a packet by its form.
#[tactic(auto, unfolding(crate::specs::Reading::packet_of))]
fn form(packet: &[u8]) -> Option<ServicePacket>
    ensures value { result ≡ packet_of packet.now }
    ensures bytes { (i : ℕ) → slice_index packet.now i < 256 }
{
    match packet {
        [first, second, third] => {
            if *first == 0 && *second == 0 && *third == 0 {
                Some(ServicePacket::Reset)
            } else {
                None
            }
        }
        [first, second, third, check] => {
            if *check == *first ^ *second ^ *third {
                direct(*first, *second, *third)
            } else {
                None
            }
        }
        _ => None,
    }
}

/// Reads three bytes whose check is right.
fn direct(first: u8, second: u8, third: u8) -> Option<ServicePacket>
    ensures { result ≡ option_map Direct (instruction_of first second third) }
{
    match instruction(first, second, third) {
        Some(instruction) => Some(ServicePacket::Direct(instruction)),
        None => None,
    }
}

/// Reads the instruction of three bytes.
#[tactic(auto, unfolding(crate::specs::Reading::instruction_of))]
fn instruction(first: u8, second: u8, third: u8) -> Option<Instruction>
    ensures { result ≡ instruction_of first second third }
{
    let address = u16::from(first % 4) * 256 + u16::from(second);
    match first / 4 {
        29 => Some(Instruction::VerifyByte {
            address,
            value: third,
        }),
        31 => Some(Instruction::WriteByte {
            address,
            value: third,
        }),
        30 => bit_form(address, third),
        _ => None,
    }
}

/// Reads the data byte of a bit manipulation.
#[tactic(auto, unfolding(crate::specs::Reading::bit_form_of))]
fn bit_form(address: u16, third: u8) -> Option<Instruction>
    ensures { result ≡ bit_form_of address third }
{
    let bit = third % 8;
    let on = third / 8 % 2 == 1;
    match third / 16 {
        14 => Some(Instruction::VerifyBit { address, bit, on }),
        15 => Some(Instruction::WriteBit { address, bit, on }),
        _ => None,
    }
}
