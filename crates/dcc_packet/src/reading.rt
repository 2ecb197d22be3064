//! Packets that are read: the instruction that bytes spell.
ghost use Rattle.std.specs.Prelude.{◌≡◌, ◌↔◌, ◌<◌, ◌≤◌, Some, IsTrue};
ghost use Rattle.dcc_packet.specs.declared.instr.Instr.{Instr};
ghost use Rattle.dcc_packet.specs.Reading.{broadcast_of, accessory_of, short_form_of, addressed_of, long_addressed_of, other_of, form_of, instruction_of};
ghost use Rattle.dcc_packet.specs.Spells.{Spells};

use crate::address::Address;
use crate::instr::Instr;
use crate::module::Module;
use crate::packet::Packet;

/// The instruction of a packet, or `None` where its check is wrong or its form is none of those of
/// [`Instr`].
#[inline]
#[tactic(auto, unfolding(crate::specs::Reading::instruction_of))]
pub fn read(packet: &Packet) -> Option<Instr>
    ensures value { result ≡ instruction_of packet.now }
    ensures exact { (i : Instr) → (result ≡ Some i) ↔ Spells packet.now i }
{
    if packet.is_checked() {
        form(packet.bytes())
    } else {
        None
    }
}

/// What bytes with a right check say, by the address partitions of their first byte (S-9.2.1, 2.1).
fn form(bytes: &[u8]) -> Option<Instr>
    ensures { result ≡ form_of bytes.now }
{
    match bytes {
        [first @ 1..=127, behind @ ..] => addressed(Address::Short(*first), behind),
        [first @ 192..=231, behind @ ..] => long_addressed(*first, behind),
        [first, behind @ ..] => other(*first, behind),
        [] => None,
    }
}

/// The instruction of the bytes after the first of a two-byte address, the check last.
#[tactic(auto, unfolding(crate::specs::Reading::long_addressed_of))]
fn long_addressed(high: u8, behind: &[u8]) -> Option<Instr>
    requires low { 192 ≤ high }
    requires high { high ≤ 231 }
    ensures { result ≡ long_addressed_of high behind.now }
{
    match behind {
        [low, behind @ ..] => addressed(
            Address::Long(u16::from(high - 192) * 256 + u16::from(*low)),
            behind,
        ),
        [] => None,
    }
}

/// The instruction of the bytes after a first byte that is no locomotive's, the check last.
#[tactic(auto, unfolding(crate::specs::Reading::other_of))]
fn other(first: u8, behind: &[u8]) -> Option<Instr>
    ensures { result ≡ other_of first behind.now }
{
    match behind {
        [second, _] => match first {
            0x00 => broadcast(*second),
            128..=191 => accessory(first, *second),
            0xFF if *second == 0 => Some(Instr::Idle),
            _ => None,
        },
        _ => None,
    }
}

/// The instruction of the byte after a broadcast address, for every locomotive decoder.
#[tactic(auto, unfolding(crate::specs::Reading::broadcast_of))]
fn broadcast(byte: u8) -> Option<Instr>
    ensures { result ≡ broadcast_of byte }
{
    match byte {
        0x00 => Some(Instr::Reset),
        64..=127 if byte / 2 % 8 == 0 => Some(Instr::StopAll {
            emergency: byte % 2 == 1,
        }),
        _ => None,
    }
}

/// What two bytes say to an accessory decoder.
#[tactic(auto, unfolding(crate::specs::Reading::accessory_of))]
fn accessory(first: u8, second: u8) -> Option<Instr>
    ensures { result ≡ accessory_of first second }
{
    if second < 128 {
        return None;
    }
    let module = Module::new(u16::from(first % 64) + 64 * u16::from(7 - second / 16 % 8))?;
    Some(Instr::Accessory {
        module,
        pair: second / 2 % 4,
        closed: second % 2 == 1,
        on: second / 8 % 2 == 1,
    })
}

/// What the bytes behind its address, the check last, say to a locomotive decoder.
#[tactic(auto, unfolding(crate::specs::Reading::addressed_of, crate::specs::Reading::long_form_of))]
fn addressed(address: Address, behind: &[u8]) -> Option<Instr>
    ensures { result ≡ addressed_of address behind.now }
{
    match behind {
        [byte, _] => short_form(address, *byte),
        [0x3F, speed, _] => Some(Instr::Speed128 {
            address,
            d: speed / 128 == 1,
            s: speed % 128,
        }),
        _ => None,
    }
}

/// What one byte says to a locomotive decoder.
#[tactic(auto, unfolding(crate::specs::Reading::short_form_of))]
fn short_form(address: Address, byte: u8) -> Option<Instr>
    ensures { result ≡ short_form_of address byte }
{
    match byte {
        64..=127 => Some(Instr::Speed {
            address,
            d: byte / 32 % 2 == 1,
            low: byte % 32,
        }),
        128..=159 => Some(Instr::GroupOne {
            address,
            bits: byte % 32,
        }),
        176..=191 => Some(Instr::GroupTwo {
            address,
            bits: byte % 16,
        }),
        160..=175 => Some(Instr::GroupThree {
            address,
            bits: byte % 16,
        }),
        _ => None,
    }
}
