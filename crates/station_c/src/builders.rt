//! The messages that layout programs send, by their opcodes, for C.
//!
//! Each function writes a message with its check byte. One that returns false wrote nothing.
ghost use Rattle.std.specs.Prelude.{◌≡◌, ◌-◌, ◌/◌, ◌%◌, ◌==◌, ◌&&◌, ◌∷◌, [], nat_le, nat_lt, true, false, length};
ghost use Rattle.ln_frame.specs.Message.{are_data, is_body};
ghost use Rattle.ln_ops.specs.Message.{fields_of};
ghost use Rattle.ln_ops.specs.declared.op.Op.TheVariants.{PowerOff, PowerOn, ForceIdle, Speed, Dirf, Snd, SwReq, SlotStat, Move, SlotRead, LocoAddr, SlotWrite};
ghost use Rattle.ln_ops.specs.Slot.{is_address};
ghost use Rattle.station_c.specs.Messages.{Requests, Writes, WritesData, message_with, sealed, sw1, sw2};

use crate::message::{Message, seal};

/// The last turnout. Turnouts count from 1.
const LAST_TURNOUT: u16 = 2048;

/// The last address of a locomotive.
const LAST_ADDRESS: u16 = 10239;

/// The second byte of OPC_WR_SL_DATA: the bytes of the message.
const SLOT_DATA_COUNT: u8 = 14;

/// Writes any message of at most 14 bytes: its body, and the check byte.
///
/// Returns false unless the body is an opcode and as many bytes below 128 as it requires.
#[unsafe(no_mangle)]
pub extern "C" fn station_message_of(body: &[u8], message: &mut Message) -> bool
    ensures done { result ≡ (nat_lt (length body.now) 14 && is_body body.now) }
    ensures message { result ≡ true → message.new ≡ message_with body.now }
    ensures untouched { result ≡ false → message.new ≡ message.old }
{
    seal(body, message)
}

/// Writes OPC_GPOFF: power off.
#[unsafe(no_mangle)]
pub extern "C" fn station_opc_gpoff(message: &mut Message)
    ensures { Requests (0x82 ∷ []) PowerOff message.new }
{
    let _ = seal(&[0x82], message);
}

/// Writes OPC_GPON: power on.
#[unsafe(no_mangle)]
pub extern "C" fn station_opc_gpon(message: &mut Message)
    ensures { Requests (0x83 ∷ []) PowerOn message.new }
{
    let _ = seal(&[0x83], message);
}

/// Writes OPC_IDLE: stop all locomotives.
#[unsafe(no_mangle)]
pub extern "C" fn station_opc_idle(message: &mut Message)
    ensures { Requests (0x85 ∷ []) ForceIdle message.new }
{
    let _ = seal(&[0x85], message);
}

/// Writes OPC_LOCO_SPD: the speed of a slot, 0 to stop, 1 to stop at once, 2 to 127 for steps 1 to
/// 126.
///
/// Returns false if one of them is above 127.
#[unsafe(no_mangle)]
pub extern "C" fn station_opc_loco_spd(slot: u8, spd: u8, message: &mut Message) -> bool
    ensures { WritesData 0xA0 (slot ∷ spd ∷ []) (Speed slot spd) result message.old message.new }
{
    seal(&[0xA0, slot, spd], message)
}

/// Writes OPC_LOCO_DIRF: bit 5 of DIRF for reverse, bit 4 for F0, bits 0 to 3 for F1 to F4 of a
/// slot.
///
/// Returns false if one of them is above 127.
#[unsafe(no_mangle)]
pub extern "C" fn station_opc_loco_dirf(slot: u8, dirf: u8, message: &mut Message) -> bool
    ensures { WritesData 0xA1 (slot ∷ dirf ∷ []) (Dirf slot dirf) result message.old message.new }
{
    seal(&[0xA1, slot, dirf], message)
}

/// Writes OPC_LOCO_SND: bits 0 to 3 of SND for F5 to F8 of a slot.
///
/// Returns false if one of them is above 127.
#[unsafe(no_mangle)]
pub extern "C" fn station_opc_loco_snd(slot: u8, snd: u8, message: &mut Message) -> bool
    ensures { WritesData 0xA2 (slot ∷ snd ∷ []) (Snd slot snd) result message.old message.new }
{
    seal(&[0xA2, slot, snd], message)
}

/// Writes OPC_SW_REQ: close or throw a turnout, its output on or off.
///
/// Returns false unless the turnout is 1 to 2048.
#[unsafe(no_mangle)]
pub extern "C" fn station_opc_sw_req(
    turnout: u16,
    closed: bool,
    on: bool,
    message: &mut Message,
) -> bool
    ensures { Writes (nat_le 1 turnout && nat_le turnout 2048)
        (0xB0 ∷ sw1 turnout ∷ sw2 turnout closed on ∷ []) (SwReq (turnout - 1) closed on)
        result message.old message.new }
{
    if turnout < 1 || turnout > LAST_TURNOUT {
        return false;
    }
    let number = turnout - 1;
    let sw1 = (number % 128) as u8;
    let sw2 = u8::from(closed) * 32 + u8::from(on) * 16 + (number / 128) as u8;
    seal(&[0xB0, sw1, sw2], message)
}

/// Writes OPC_SLOT_STAT1: the state and the type of a slot.
///
/// Returns false if one of them is above 127.
#[unsafe(no_mangle)]
pub extern "C" fn station_opc_slot_stat1(slot: u8, stat: u8, message: &mut Message) -> bool
    ensures { WritesData 0xB5 (slot ∷ stat ∷ []) (SlotStat slot stat)
        result message.old message.new }
{
    seal(&[0xB5, slot, stat], message)
}

/// Writes OPC_MOVE_SLOTS: the same slot twice takes it into use, destination 0 dispatches it, and
/// source 0 takes the dispatched slot.
///
/// Returns false if one of them is above 127.
#[unsafe(no_mangle)]
pub extern "C" fn station_opc_move_slots(src: u8, dest: u8, message: &mut Message) -> bool
    ensures { WritesData 0xBA (src ∷ dest ∷ []) (Move src dest) result message.old message.new }
{
    seal(&[0xBA, src, dest], message)
}

/// Writes OPC_RQ_SL_DATA: request the data of a slot.
///
/// Returns false if it is above 127.
#[unsafe(no_mangle)]
pub extern "C" fn station_opc_rq_sl_data(slot: u8, message: &mut Message) -> bool
    ensures { WritesData 0xBB (slot ∷ 0 ∷ []) (SlotRead slot) result message.old message.new }
{
    seal(&[0xBB, slot, 0], message)
}

/// Writes OPC_LOCO_ADR: request the slot of a locomotive, or a free one for it.
///
/// Returns false unless the address is 1 to 10239.
#[unsafe(no_mangle)]
pub extern "C" fn station_opc_loco_adr(address: u16, message: &mut Message) -> bool
    ensures { Writes (is_address address) (0xBF ∷ address / 128 ∷ address % 128 ∷ [])
        (LocoAddr (address / 128) (address % 128)) result message.old message.new }
{
    if address < 1 || address > LAST_ADDRESS {
        return false;
    }
    seal(
        &[0xBF, (address / 128) as u8, (address % 128) as u8],
        message,
    )
}

/// Writes OPC_WR_SL_DATA: write a slot. The fields are slot, STAT1, ADR, SPD, DIRF, TRK, SS2, ADR2,
/// SND, ID1 and ID2.
///
/// Returns false unless they are 11 bytes below 128.
#[unsafe(no_mangle)]
pub extern "C" fn station_opc_wr_sl_data(fields: &[u8], message: &mut Message) -> bool
    ensures { Writes ((length fields.now == 11) && are_data fields.now) (0xEF ∷ 14 ∷ fields.now)
        (SlotWrite (fields_of (0xEF ∷ 14 ∷ fields.now))) result message.old message.new }
{
    match *fields {
        [slot, stat, adr, spd, dirf, trk, ss2, adr2, snd, id1, id2] => seal(
            &[
                0xEF,
                SLOT_DATA_COUNT,
                slot,
                stat,
                adr,
                spd,
                dirf,
                trk,
                ss2,
                adr2,
                snd,
                id1,
                id2,
            ],
            message,
        ),
        _ => false,
    }
}
