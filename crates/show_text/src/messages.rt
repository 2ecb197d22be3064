//! Lines of messages.
ghost use Rattle.std.specs.Prelude.{◌≡◌, ◌≤◌, ◌+◌, ◌++◌, length, true};
ghost use Rattle.std.specs.Fmt.{decimal};
ghost use Rattle.arrayvec.specs.ArrayString.{array_string_len};
ghost use Rattle.ln_ops.specs.Slot.{address_with};
ghost use Rattle.show_text.specs.Messages.{switch_text, fields_text, packet_text, pair_text, is_pair, op_text, message_text};

use crate::line::{Line, push_field};
use ln_frame::Msg;
use ln_ops::{Op, SlotFields, im_bytes, read};
use text::push_hex_words;

/// A label and a byte after it.
fn push_byte_field(line: &mut Line, label: &str, n: u8)
    requires label { length label.now ≤ 20 }
    requires room { array_string_len line.old ≤ 615 }
    ensures text { line.new.bytes ≡ line.old.bytes ++ (label.now ++ decimal n) }
    ensures len { array_string_len line.new ≤ array_string_len line.old + length label.now + 5 }
{
    push_field(line, label, u16::from(n));
}

/// A label and an address after it, of which a message has two halves.
fn push_address(line: &mut Line, label: &str, high: u8, low: u8)
    requires label { length label.now ≤ 20 }
    requires room { array_string_len line.old ≤ 615 }
    ensures text { line.new.bytes
        ≡ line.old.bytes ++ (label.now ++ decimal (address_with high low)) }
    ensures len { array_string_len line.new ≤ array_string_len line.old + length label.now + 5 }
{
    push_field(line, label, u16::from(high) * 128 + u16::from(low));
}

/// Two labels, each with a byte after it.
fn push_pair(line: &mut Line, first: &str, n: u8, second: &str, m: u8)
    requires first { length first.now ≤ 20 }
    requires second { length second.now ≤ 20 }
    requires room { array_string_len line.old ≤ 590 }
    ensures text { line.new.bytes ≡ line.old.bytes ++ pair_text first.now n second.now m }
    ensures len { array_string_len line.new
        ≤ array_string_len line.old + length first.now + length second.now + 10 }
{
    push_byte_field(line, first, n);
    push_byte_field(line, second, m);
}

/// `switch N closed on`, by either label.
fn push_switch(line: &mut Line, label: &str, number: u16, closed: bool, on: bool)
    requires label { length label.now ≤ 20 }
    requires room { array_string_len line.old ≤ 590 }
    ensures { line.new.bytes ≡ line.old.bytes ++ (label.now ++ switch_text number closed on) }
{
    push_field(line, label, number);
    line.push_str(if closed { " closed" } else { " thrown" });
    line.push_str(if on { " on" } else { " off" });
}

/// The bytes of a slot, each after its name, except the address, which ADR2 and ADR hold.
fn push_fields(line: &mut Line, fields: &SlotFields)
    requires { array_string_len line.old ≤ 400 }
    ensures { line.new.bytes ≡ line.old.bytes ++ fields_text fields.now }
{
    push_pair(line, "slot ", fields.slot, " stat ", fields.stat);
    push_address(line, " address ", fields.adr2, fields.adr);
    push_pair(line, " spd ", fields.spd, " dirf ", fields.dirf);
    push_pair(line, " trk ", fields.trk, " ss2 ", fields.ss2);
    push_byte_field(line, " snd ", fields.snd);
    push_pair(line, " ids ", fields.id1, " ", fields.id2);
}

/// `imm C` and the packet bytes of the message, of which the first C count.
fn push_packet(line: &mut Line, count: u8, bytes: [u8; 5])
    requires { array_string_len line.old ≤ 590 }
    ensures { line.new.bytes ≡ line.old.bytes ++ packet_text count bytes }
{
    push_byte_field(line, "imm ", count);
    push_hex_words(line, &bytes);
}

/// Appends the text of an operation of two numbers.
fn push_pair_op(line: &mut Line, op: Op)
    requires pair { is_pair op ≡ true }
    requires room { array_string_len line.old ≤ 590 }
    ensures { line.new.bytes ≡ line.old.bytes ++ op_text op }
{
    match op {
        Op::Speed { slot, spd } => push_pair(line, "speed slot ", slot, " spd ", spd),
        Op::Dirf { slot, dirf } => push_pair(line, "dirf slot ", slot, " dirf ", dirf),
        Op::Snd { slot, snd } => push_pair(line, "snd slot ", slot, " snd ", snd),
        Op::LongAck { opc, ack } => push_pair(line, "ack opc ", opc, " code ", ack),
        Op::SlotStat { slot, stat } => push_pair(line, "status slot ", slot, " stat ", stat),
        Op::Move { src, dest } => push_pair(line, "move ", src, " ", dest),
        _ => {}
    }
}

/// Appends the text of the message's operation.
fn push_op(line: &mut Line, op: Op)
    requires { array_string_len line.old ≤ 385 }
    ensures { line.new.bytes ≡ line.old.bytes ++ op_text op }
{
    match op {
        Op::PowerOff => line.push_str("power off"),
        Op::PowerOn => line.push_str("power on"),
        Op::ForceIdle => line.push_str("force idle"),
        Op::SwReq { number, closed, on } => push_switch(line, "switch ", number, closed, on),
        Op::SwAck { number, closed, on } => push_switch(line, "switch-ack ", number, closed, on),
        Op::SlotRead { slot } => push_byte_field(line, "read slot ", slot),
        Op::LocoAddr { high, low } => push_address(line, "address ", high, low),
        Op::SlotData(fields) => {
            line.push_str("slot-data ");
            push_fields(line, &fields);
        }
        Op::SlotWrite(fields) => {
            line.push_str("slot-write ");
            push_fields(line, &fields);
        }
        Op::Imm { count, .. } => push_packet(line, count, im_bytes(op)),
        Op::Other => line.push_str("other"),
        _ => push_pair_op(line, op),
    }
}

/// Returns `msg`, the bytes of the message in upper-case hexadecimal digits, and its operation in
/// words and decimal numbers, or `other` if the message is unknown.
pub fn message_line(message: &Msg) -> Line
    ensures { result.bytes ≡ message_text message.now }
{
    let mut line = Line::new();
    line.push_str("msg");
    push_hex_words(&mut line, message.bytes());
    line.push_str(" ");
    push_op(&mut line, read(message));
    line
}
