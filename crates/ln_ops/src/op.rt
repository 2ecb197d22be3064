//! What a message asks or tells.
ghost use Rattle.std.specs.Prelude.{◌≡◌, ℕ, ◌<◌, ◌≤◌, length, slice_index};
ghost use Rattle.ln_ops.specs.Message.{fields_of, four_of, im_byte, im_bytes_of, imm_of, is_closed, is_on, IsOfData, op_of, switch_number, switch_of};

use crate::fields::SlotFields;
use ln_frame::Msg;

/// OPC_GPOFF: power off.
pub(crate) const OPC_GPOFF: u8 = 0x82;

/// OPC_GPON: power on.
pub(crate) const OPC_GPON: u8 = 0x83;

/// OPC_IDLE: stop all locomotives, power stays.
pub(crate) const OPC_IDLE: u8 = 0x85;

/// OPC_LOCO_SPD: the speed of a slot.
pub(crate) const OPC_LOCO_SPD: u8 = 0xA0;

/// OPC_LOCO_DIRF: direction and F0 to F4 of a slot.
pub(crate) const OPC_LOCO_DIRF: u8 = 0xA1;

/// OPC_LOCO_SND: F5 to F8 of a slot.
pub(crate) const OPC_LOCO_SND: u8 = 0xA2;

/// OPC_SW_REQ: throw or close a switch.
pub(crate) const OPC_SW_REQ: u8 = 0xB0;

/// OPC_LONG_ACK: a message was taken or refused.
pub(crate) const OPC_LONG_ACK: u8 = 0xB4;

/// OPC_SLOT_STAT1: state and decoder type of a slot.
pub(crate) const OPC_SLOT_STAT1: u8 = 0xB5;

/// OPC_MOVE_SLOTS: take, move, put or get a slot.
pub(crate) const OPC_MOVE_SLOTS: u8 = 0xBA;

/// OPC_RQ_SL_DATA: read a slot.
pub(crate) const OPC_RQ_SL_DATA: u8 = 0xBB;

/// OPC_SW_ACK: throw or close a switch, and tell whether it was taken.
pub(crate) const OPC_SW_ACK: u8 = 0xBD;

/// OPC_LOCO_ADR: the slot of an address.
pub(crate) const OPC_LOCO_ADR: u8 = 0xBF;

/// OPC_SL_RD_DATA: slot data, as a master tells it.
pub(crate) const OPC_SL_RD_DATA: u8 = 0xE7;

/// OPC_IMM_PACKET: a packet for the track.
pub(crate) const OPC_IMM_PACKET: u8 = 0xED;

/// OPC_WR_SL_DATA: slot data to be written.
pub(crate) const OPC_WR_SL_DATA: u8 = 0xEF;

/// The count of the messages that carry slot data.
pub(crate) const SLOT_DATA_COUNT: u8 = 14;

/// The count of OPC_IMM_PACKET.
const IMM_COUNT: u8 = 11;

/// The bytes after the count of OPC_IMM_PACKET.
const IMM_MARK: u8 = 0x7F;

/// What a message asks or tells, by its opcode. Every byte but an opcode and the IM bytes of a
/// packet is below 128.
#[derive(Clone, Copy)]
pub enum Op {
    /// OPC_GPOFF, 82.
    PowerOff,
    /// OPC_GPON, 83.
    PowerOn,
    /// OPC_IDLE, 85.
    ForceIdle,
    /// OPC_LOCO_SPD, A0: SPD of a slot.
    Speed {
        slot: u8,
        spd: u8,
    },
    /// OPC_LOCO_DIRF, A1: DIRF of a slot.
    Dirf {
        slot: u8,
        dirf: u8,
    },
    /// OPC_LOCO_SND, A2: SND of a slot.
    Snd {
        slot: u8,
        snd: u8,
    },
    /// OPC_SW_REQ, B0: switch `number`, 0 to 2047.
    SwReq {
        number: u16,
        closed: bool,
        on: bool,
    },
    /// OPC_SW_ACK, BD: the same, with a long acknowledge.
    SwAck {
        number: u16,
        closed: bool,
        on: bool,
    },
    /// OPC_LONG_ACK, B4: the opcode with bit 7 clear, and a code.
    LongAck {
        opc: u8,
        ack: u8,
    },
    /// OPC_SLOT_STAT1, B5: STAT1 of a slot.
    SlotStat {
        slot: u8,
        stat: u8,
    },
    /// OPC_MOVE_SLOTS, BA.
    Move {
        src: u8,
        dest: u8,
    },
    /// OPC_RQ_SL_DATA, BB.
    SlotRead {
        slot: u8,
    },
    /// OPC_LOCO_ADR, BF: the two halves of an address, seven bits each.
    LocoAddr {
        high: u8,
        low: u8,
    },
    /// OPC_SL_RD_DATA, E7 with count 0E.
    SlotData(SlotFields),
    /// OPC_WR_SL_DATA, EF with count 0E.
    SlotWrite(SlotFields),
    /// OPC_IMM_PACKET, ED with count 0B, followed by 7F: the packet is the first `count` of the IM
    /// bytes, 0 to 7. The bytes past the count are given too, and no byte is the packet's check.
    Imm {
        count: u8,
        im1: u8,
        im2: u8,
        im3: u8,
        im4: u8,
        im5: u8,
    },
    /// Any other message.
    Other,
}

/// What a message asks or tells: every whole message is one operation, `Other` where no opcode of
/// the table fits.
pub fn read(message: &Msg) -> Op
    ensures op { result ≡ op_of message.now }
    ensures data { IsOfData result }
{
    let bytes = message.bytes();
    match bytes[0] {
        OPC_GPOFF => Op::PowerOff,
        OPC_GPON => Op::PowerOn,
        OPC_IDLE => Op::ForceIdle,
        0xA0..=0xBF => read_four(bytes[0], bytes[1], bytes[2]),
        OPC_SL_RD_DATA if bytes[1] == SLOT_DATA_COUNT => Op::SlotData(read_fields(bytes)),
        OPC_WR_SL_DATA if bytes[1] == SLOT_DATA_COUNT => Op::SlotWrite(read_fields(bytes)),
        OPC_IMM_PACKET if bytes[1] == IMM_COUNT && bytes[2] == IMM_MARK => read_imm(bytes),
        _ => Op::Other,
    }
}

// A message of four bytes: opcode, two bytes of data and the check.
fn read_four(opcode: u8, first: u8, second: u8) -> Op
    requires first { first < 128 }
    requires second { second < 128 }
    ensures op { result ≡ four_of opcode first second }
    ensures data { IsOfData result }
{
    match opcode {
        OPC_LOCO_SPD => Op::Speed {
            slot: first,
            spd: second,
        },
        OPC_LOCO_DIRF => Op::Dirf {
            slot: first,
            dirf: second,
        },
        OPC_LOCO_SND => Op::Snd {
            slot: first,
            snd: second,
        },
        OPC_SW_REQ => read_switch(false, first, second),
        OPC_SW_ACK => read_switch(true, first, second),
        OPC_LONG_ACK => Op::LongAck {
            opc: first,
            ack: second,
        },
        OPC_SLOT_STAT1 => Op::SlotStat {
            slot: first,
            stat: second,
        },
        OPC_MOVE_SLOTS => Op::Move {
            src: first,
            dest: second,
        },
        OPC_RQ_SL_DATA => Op::SlotRead { slot: first },
        OPC_LOCO_ADR => Op::LocoAddr {
            high: first,
            low: second,
        },
        _ => Op::Other,
    }
}

// The request of OPC_SW_REQ, or of OPC_SW_ACK, which asks for a long acknowledge. A separate
// function, so that no other message reads these bits.
fn read_switch(acknowledged: bool, sw1: u8, sw2: u8) -> Op
    requires { sw1 < 128 }
    ensures op { result ≡ switch_of acknowledged sw1 sw2 }
    ensures data { IsOfData result }
{
    let number = switch_number(sw1, sw2);
    let (closed, on) = (is_closed(sw2), is_on(sw2));
    if acknowledged {
        Op::SwAck { number, closed, on }
    } else {
        Op::SwReq { number, closed, on }
    }
}

/// The switch that SW1 and SW2 name.
fn switch_number(sw1: u8, sw2: u8) -> u16
    requires { sw1 < 128 }
    ensures number { result ≡ switch_number sw1 sw2 }
    ensures bits { result < 2048 }
{
    u16::from(sw2 % 16) * 128 + u16::from(sw1)
}

/// Bit 5 of SW2, DIR.
fn is_closed(sw2: u8) -> bool
    ensures { result ≡ is_closed sw2 }
{
    sw2 / 32 % 2 == 1
}

/// Bit 4 of SW2, ON.
fn is_on(sw2: u8) -> bool
    ensures { result ≡ is_on sw2 }
{
    sw2 / 16 % 2 == 1
}

// The packet of OPC_IMM_PACKET: REPS, DHI and IM1 to IM5 follow the first three bytes.
fn read_imm(bytes: &[u8]) -> Op
    requires size { 11 ≤ length bytes.now }
    requires data { (i : ℕ) → 1 ≤ i → slice_index bytes.now i < 128 }
    ensures op { result ≡ imm_of bytes.now }
    ensures data { IsOfData result }
{
    let dhi = bytes[4];
    Op::Imm {
        count: bytes[3] / 16 % 8,
        im1: im_byte(dhi % 2, bytes[5]),
        im2: im_byte(dhi / 2 % 2, bytes[6]),
        im3: im_byte(dhi / 4 % 2, bytes[7]),
        im4: im_byte(dhi / 8 % 2, bytes[8]),
        im5: im_byte(dhi / 16 % 2, bytes[9]),
    }
}

/// The IM byte of bit 7 and the other seven bits.
fn im_byte(top: u8, low: u8) -> u8
    requires top { top < 2 }
    requires low { low < 128 }
    ensures { result ≡ im_byte top low }
{
    top * 128 + low
}

/// The five IM bytes of OPC_IMM_PACKET; zeros of any other operation.
pub fn im_bytes(op: Op) -> [u8; 5]
    ensures { result ≡ im_bytes_of op }
{
    let Op::Imm {
        im1,
        im2,
        im3,
        im4,
        im5,
        ..
    } = op
    else {
        return [0; 5];
    };
    [im1, im2, im3, im4, im5]
}

/// The slot data of a message that carries it.
pub(crate) fn read_fields(bytes: &[u8]) -> SlotFields
    requires size { 14 ≤ length bytes.now }
    requires data { (i : ℕ) → 1 ≤ i → slice_index bytes.now i < 128 }
    ensures { result ≡ fields_of bytes.now }
{
    SlotFields {
        slot: bytes[2],
        stat: bytes[3],
        adr: bytes[4],
        spd: bytes[5],
        dirf: bytes[6],
        trk: bytes[7],
        ss2: bytes[8],
        adr2: bytes[9],
        snd: bytes[10],
        id1: bytes[11],
        id2: bytes[12],
    }
}
