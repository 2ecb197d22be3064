//! The packets of what is sent next, made of the slots at that moment.
ghost use Rattle.std.specs.Prelude.{◌≡◌, ◌≤◌, true, IsTrue, unwrap_or};
ghost use Rattle.dcc_packet.specs.Address.{is_legal};
ghost use Rattle.dcc_packet.specs.Sent.{speed_bytes};
ghost use Rattle.dcc_packet.specs.Steps.{steps_of_kind};
ghost use Rattle.ln_ops.specs.Slot.{is_held};
ghost use Rattle.slot_table.specs.Entry.{IsRow, entry_of};
ghost use Rattle.station_core.specs.Packets.{address_sent, entry_packet, is_lit};
ghost use Rattle.station_core.specs.Entries.{functions_asked, is_forward, motion_asked, steps_asked};

use dcc_packet::{Address, Packet, Steps, group_one, group_three, group_two, speed, steps_of};
use ln_ops::Row;
use refresh_ring::Kind;

/// The packet of this kind for what is in a slot that is not free.
pub(crate) fn entry_packet(kind: Kind, row: &Row) -> Packet
    requires row { IsRow row.now }
    requires held { is_held row.now.state ≡ true }
    ensures { result ≡ entry_packet kind row.now.address (entry_of row.now) }
{
    let address = address_sent(row.address);
    match kind {
        Kind::Speed => speed_packet(address, row),
        Kind::GroupOne => group_one(address, functions_asked(row)),
        Kind::GroupTwo => group_two(address, functions_asked(row)),
        Kind::GroupThree => group_three(address, functions_asked(row)),
    }
}

// Speed and direction, with F0 for decoders of 14 steps.
fn speed_packet(address: Address, row: &Row) -> Packet
    requires legal { IsTrue (is_legal address) }
    requires row { IsRow row.now }
    ensures { result
        ≡ speed_bytes address (steps_asked (entry_of row.now)) (motion_asked (entry_of row.now))
        (is_forward (entry_of row.now)) (is_lit (entry_of row.now)) }
{
    let steps = steps_asked(row.kind);
    let motion = steps_of(steps, row.spd);
    speed(
        address,
        steps,
        motion,
        row.dirf / 32 % 2 == 0,
        row.dirf / 16 % 2 == 1,
    )
}

// A short address up to 127, and a long one from 128 on.
fn address_sent(address: u16) -> Address
    requires low { 1 ≤ address }
    requires high { address ≤ 10239 }
    ensures address { result ≡ address_sent address }
    ensures legal { IsTrue (is_legal result) }
{
    if address < 128 {
        Address::Short(address as u8)
    } else {
        Address::Long(address)
    }
}

// The steps of a decoder type.
fn steps_asked(kind: u8) -> Steps
    ensures { result ≡ unwrap_or (steps_of_kind kind) Steps.S128 }
{
    Steps::of_kind(kind).unwrap_or(Steps::S128)
}

// F0 to F12, bit k being Fk.
fn functions_asked(row: &Row) -> u16
    requires { IsRow row.now }
    ensures { result ≡ functions_asked (entry_of row.now) }
{
    u16::from(row.dirf / 16 % 2)
        + 2 * u16::from(row.dirf % 16)
        + 32 * u16::from(row.snd % 16)
        + 512 * u16::from(row.more % 16)
}
