//! The packets that a command station sends.
ghost use Rattle.std.specs.Prelude.{◌≡◌, ◌<◌, ◌≤◌, true, IsTrue, length};
ghost use Rattle.dcc_packet.specs.Address.{is_legal};
ghost use Rattle.dcc_packet.specs.Motions.{is_motion};
ghost use Rattle.dcc_packet.specs.Form.{to_decoder};
ghost use Rattle.dcc_packet.specs.Meant.{speed_instr, group_one_instr, group_two_instr, group_three_instr, accessory_instr};
ghost use Rattle.dcc_packet.specs.Spells.{Spells};
ghost use Rattle.dcc_packet.specs.declared.instr.Instr.TheVariants.{Idle, StopAll};
ghost use Rattle.dcc_packet.specs.Sent.{code_by, speed_bytes, group_one_bytes, group_two_bytes, group_three_bytes, accessory_bytes, idle_bytes, stop_all_bytes, last_switch};

use crate::address::Address;
use crate::packet::{MAX_LEN, Packet};
use crate::steps::{Motion, Steps};
use arrayvec::ArrayVec;

/// The packet of an instruction to one locomotive decoder.
fn to_decoder(address: Address, instruction: &[u8]) -> Packet
    requires legal { IsTrue (is_legal address) }
    requires some { 1 ≤ length instruction.now }
    requires room { length instruction.now ≤ 2 }
    ensures { result ≡ to_decoder address instruction.now }
{
    let mut body: ArrayVec<u8, MAX_LEN> = ArrayVec::new();
    match address {
        Address::Short(number) => body.push(number),
        Address::Long(number) => {
            body.push(192 + (number / 256) as u8);
            body.push((number % 256) as u8);
        }
    }
    for byte in instruction {
        body.push(*byte);
    }
    Packet::ended(body)
}

/// The number of a motion: 0 stop, `emergency` emergency stop, `n + offset` step n.
fn code_of(motion: Motion, emergency: u8, offset: u8) -> u8
    requires { code_by emergency offset motion < 256 }
    ensures { result ≡ code_by emergency offset motion }
{
    match motion {
        Motion::Stop => 0,
        Motion::Emergency => emergency,
        Motion::Step { n, .. } => n + offset,
    }
}

/// The speed and direction packet of an address: a motion, the direction as the track says it, and
/// F0, which the packet carries with 14 steps alone (S-9.2.1, 2.3.2 and 2.3.3).
pub fn speed(address: Address, steps: Steps, motion: Motion, forward: bool, f0: bool) -> Packet
    requires legal { IsTrue (is_legal address) }
    requires fits { IsTrue (is_motion steps motion) }
    ensures bytes { result ≡ speed_bytes address steps motion forward f0 }
    ensures spells { Spells result (speed_instr address steps motion forward f0) }
{
    match steps {
        Steps::S14 => to_decoder(
            address,
            &[64 + 32 * u8::from(forward) + 16 * u8::from(f0) + code_of(motion, 1, 1)],
        ),
        Steps::S28 => {
            let code = code_of(motion, 2, 3);
            to_decoder(
                address,
                &[64 + 32 * u8::from(forward) + 16 * (code % 2) + code / 2],
            )
        }
        Steps::S128 => to_decoder(
            address,
            &[0x3F, 128 * u8::from(forward) + code_of(motion, 1, 1)],
        ),
    }
}

/// The function group one packet of an address: F0 to F4, where bit k of `functions` is Fk
/// (S-9.2.1, 2.3.4).
pub fn group_one(address: Address, functions: u16) -> Packet
    requires { IsTrue (is_legal address) }
    ensures bytes { result ≡ group_one_bytes address functions }
    ensures spells { Spells result (group_one_instr address functions) }
{
    to_decoder(
        address,
        &[128 + 16 * (functions % 2) as u8 + (functions / 2 % 16) as u8],
    )
}

/// The function group two packet of an address: F5 to F8, where bit k of `functions` is Fk
/// (S-9.2.1, 2.3.5 with S 1).
pub fn group_two(address: Address, functions: u16) -> Packet
    requires { IsTrue (is_legal address) }
    ensures bytes { result ≡ group_two_bytes address functions }
    ensures spells { Spells result (group_two_instr address functions) }
{
    to_decoder(address, &[176 + (functions / 32 % 16) as u8])
}

/// The function group three packet of an address: F9 to F12, where bit k of `functions` is Fk
/// (S-9.2.1, 2.3.5 with S 0).
pub fn group_three(address: Address, functions: u16) -> Packet
    requires { IsTrue (is_legal address) }
    ensures bytes { result ≡ group_three_bytes address functions }
    ensures spells { Spells result (group_three_instr address functions) }
{
    to_decoder(address, &[160 + (functions / 512 % 16) as u8])
}

/// The packet of a switch, 0 to 2039, four to a module: which output of its pair, closed or thrown,
/// goes on or off (S-9.2.1, 2.4.1).
pub fn accessory(number: u16, closed: bool, on: bool) -> Packet
    requires { number ≤ last_switch }
    ensures bytes { result ≡ accessory_bytes number closed on }
    ensures spells { Spells result (accessory_instr number closed on) }
{
    let module = number / 4 + 1;
    let pair = (number % 4) as u8;
    Packet::sealed(&[
        128 + (module % 64) as u8,
        128 + 16 * (7 - module / 64) as u8 + 8 * u8::from(on) + 2 * pair + u8::from(closed),
    ])
}

/// The idle packet (S-9.2, baseline packets).
pub fn idle() -> Packet
    ensures bytes { result ≡ idle_bytes }
    ensures spells { Spells result Idle }
{
    Packet::sealed(&[0xFF, 0x00])
}

/// The broadcast packet that stops every locomotive at once (S-9.2, baseline packets).
pub fn stop_all() -> Packet
    ensures bytes { result ≡ stop_all_bytes }
    ensures spells { Spells result (StopAll true) }
{
    Packet::sealed(&[0x00, 0x51])
}
