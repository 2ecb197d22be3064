//! Explanations of LocoNet messages.
ghost use Rattle.std.specs.Prelude.{◌≡◌, ◌≤◌, ◌<◌, ◌+◌, ◌++◌, IsTrue, codes, false, length};
ghost use Rattle.arrayvec.specs.ArrayVec.{array_vec_len};
ghost use Rattle.dcc_packet.specs.Form.{with_check};
ghost use Rattle.dcc_packet.specs.Packet.{xor_of};
ghost use Rattle.ln_frame.specs.Message.{are_data, is_whole};
ghost use Rattle.ln_ops.specs.Message.{IsOfData, op_of};
ghost use Rattle.ln_ops.specs.Slot.{is_slot};
ghost use Rattle.describe.specs.Rows.{fits, rows_of};
ghost use Rattle.describe.specs.Messages.{acknowledged_words, dirf_words, dispatch_words, fault_words, imm_words, is_of_maker, is_reported, maker_rows, message_words, move_words, moved_words, op_words, read_words, sent_words, slot_label, snd_words, speed_words, standard_rows, status_words, table_rows, table_words, taken_words, use_words, whole_words, written_words, wrong_check_words};

use crate::fields::{Field, light_and_four, value_of};
use crate::maker_rows::MAKER_MESSAGES;
use crate::message_rows::{LONG_ACKS, MESSAGES, SLOT_READS, SLOT_WRITES};
use crate::packets::{push_direction, push_packet, push_switch};
use crate::pieces::{Words, push_byte, push_functions, push_halves, push_hex, push_text};
use crate::rows::{Row, push_row};
use crate::slots::{is_forward, push_slot, push_slot_data, push_spd, push_stat};
use arrayvec::ArrayVec;
use ln_frame::Msg;
use ln_ops::{Op, SlotFields, im_bytes, read};

/// The slots of locomotives.
fn is_slot(slot: u8) -> bool
    ensures { result ≡ is_slot slot }
{
    1 <= slot && slot <= 119
}

/// A slot that is dispatched.
#[tactic(auto, unfolding(crate::specs::Messages::dispatch_words))]
fn push_dispatch(words: &mut Words, slot: u8)
    requires { array_vec_len words.old + 40 ≤ 400 }
    ensures { words.new.items ≡ words.old.items ++ dispatch_words slot }
{
    push_byte(words, "dispatch slot ", slot);
}

/// A slot that is taken into use.
#[tactic(auto, unfolding(crate::specs::Messages::use_words))]
fn push_use(words: &mut Words, slot: u8)
    requires { array_vec_len words.old + 40 ≤ 400 }
    ensures { words.new.items ≡ words.old.items ++ use_words slot }
{
    push_byte(words, "use slot ", slot);
}

/// A slot whose locomotive is moved to another.
#[tactic(auto, unfolding(crate::specs::Messages::moved_words))]
fn push_moved(words: &mut Words, src: u8, dest: u8)
    requires { array_vec_len words.old + 40 ≤ 400 }
    ensures { words.new.items ≡ words.old.items ++ moved_words src dest }
{
    push_byte(words, "move slot ", src);
    push_byte(words, " to slot ", dest);
}

/// The operation of a move of slots.
fn push_move(words: &mut Words, src: u8, dest: u8)
    requires { array_vec_len words.old + 40 ≤ 400 }
    ensures { words.new.items ≡ words.old.items ++ move_words src dest }
{
    if src == 0 {
        push_text(words, "take the dispatched slot");
    } else if dest == 0 {
        push_dispatch(words, src);
    } else if src == dest {
        push_use(words, src);
    } else {
        push_moved(words, src, dest);
    }
}

/// The slot that is requested.
#[tactic(auto, unfolding(crate::specs::Messages::read_words))]
fn push_read(words: &mut Words, slot: u8)
    requires { array_vec_len words.old + 40 ≤ 400 }
    ensures { words.new.items ≡ words.old.items ++ read_words slot }
{
    match slot {
        123 => push_text(words, "read the fast clock"),
        124 => push_text(words, "read the programmer"),
        127 => push_text(words, "read the options of the command station"),
        _ => push_byte(words, "read slot ", slot),
    }
}

/// The bytes of a packet, followed by their check.
fn checked(body: &[u8]) -> ArrayVec<u8, 6>
    requires { length body.now ≤ 5 }
    ensures { result.items ≡ with_check body.now }
{
    let mut packet = ArrayVec::new();
    for byte in body {
        packet.push(*byte);
    }
    packet.push(check_of(body));
    packet
}

/// The exclusive or of the bytes.
fn check_of(bytes: &[u8]) -> u8
    ensures { result ≡ xor_of bytes.now }
{
    bytes.iter().fold(0, |sum, byte| sum ^ byte)
}

/// The packet to be sent, without its check.
fn push_sent(words: &mut Words, body: &[u8])
    requires size { length body.now ≤ 5 }
    requires room { array_vec_len words.old + 330 ≤ 400 }
    ensures { words.new.items ≡ words.old.items ++ sent_words body.now }
{
    let packet = checked(body);
    push_text(words, "send to the track: ");
    push_packet(words, packet.as_slice());
}

/// The first `count` of the bytes that a message has for a packet.
fn push_imm(words: &mut Words, count: u8, bytes: [u8; 5])
    requires { array_vec_len words.old + 330 ≤ 400 }
    ensures { words.new.items ≡ words.old.items ++ imm_words count bytes }
{
    match count {
        2..=5 => push_sent(words, &bytes[..usize::from(count)]),
        _ => push_text(words, "send to the track: wrong length"),
    }
}

/// A slot and its direction and F0 to F4.
#[tactic(auto, unfolding(crate::specs::Messages::dirf_words))]
fn push_dirf(words: &mut Words, slot: u8, dirf: u8)
    requires { array_vec_len words.old + 120 ≤ 400 }
    ensures { words.new.items ≡ words.old.items ++ dirf_words slot dirf }
{
    push_slot(words, slot);
    push_functions(words, ": F0 to F4:", 0, light_and_four(dirf));
    push_direction(words, is_forward(dirf));
}

/// A slot and its F5 to F8.
#[tactic(auto, unfolding(crate::specs::Messages::snd_words))]
fn push_snd(words: &mut Words, slot: u8, snd: u8)
    requires { array_vec_len words.old + 120 ≤ 400 }
    ensures { words.new.items ≡ words.old.items ++ snd_words slot snd }
{
    push_slot(words, slot);
    push_functions(words, ": F5 to F8:", 5, u16::from(snd % 16));
}

/// `slot N: `, before the explanation of the slot.
fn push_slot_before(words: &mut Words, slot: u8)
    requires { array_vec_len words.old + 12 ≤ 400 }
    ensures text { words.new.items ≡ words.old.items ++ slot_label slot ++ codes ": " }
    ensures len { array_vec_len words.new ≤ array_vec_len words.old + 12 }
{
    push_slot(words, slot);
    push_text(words, ": ");
}

/// A slot and its speed.
#[tactic(auto, unfolding(crate::specs::Messages::speed_words))]
fn push_speed(words: &mut Words, slot: u8, spd: u8)
    requires { array_vec_len words.old + 40 ≤ 400 }
    ensures { words.new.items ≡ words.old.items ++ speed_words slot spd }
{
    push_slot_before(words, slot);
    push_spd(words, spd);
}

/// A slot and its STAT1.
#[tactic(auto, unfolding(crate::specs::Messages::status_words))]
fn push_status(words: &mut Words, slot: u8, stat: u8)
    requires { array_vec_len words.old + 70 ≤ 400 }
    ensures { words.new.items ≡ words.old.items ++ status_words slot stat }
{
    push_slot_before(words, slot);
    push_stat(words, stat);
}

/// A switch, and that the message is to be acknowledged.
#[tactic(auto, unfolding(crate::specs::Messages::acknowledged_words))]
fn push_acknowledged_switch(words: &mut Words, number: u16, closed: bool, on: bool)
    requires { array_vec_len words.old + 60 ≤ 400 }
    ensures { words.new.items ≡ words.old.items ++ acknowledged_words number closed on }
{
    push_switch(words, number, closed, on);
    push_text(words, ", to be acknowledged");
}

/// Slot data to be written.
#[tactic(auto, unfolding(crate::specs::Messages::written_words))]
fn push_written(words: &mut Words, fields: &SlotFields)
    requires { array_vec_len words.old + 300 ≤ 400 }
    ensures { words.new.items ≡ words.old.items ++ written_words fields.now }
{
    push_text(words, "write ");
    push_slot_data(words, fields);
}

/// Whether the function below explains the operation.
fn is_reported(op: &Op) -> bool
    ensures { result ≡ is_reported op.now }
{
    match *op {
        Op::LongAck { .. } | Op::Other => false,
        Op::SlotData(fields) => is_slot(fields.slot),
        Op::SlotWrite(fields) => is_slot(fields.slot),
        _ => true,
    }
}

/// The explanation of an operation.
fn push_op(words: &mut Words, op: &Op)
    requires data { IsOfData op.now }
    requires room { array_vec_len words.old ≤ 0 }
    ensures { words.new.items ≡ words.old.items ++ op_words op.now }
{
    match *op {
        Op::PowerOff => push_text(words, "track power off"),
        Op::PowerOn => push_text(words, "track power on"),
        Op::ForceIdle => push_text(words, "stop all locomotives"),
        Op::Speed { slot, spd } => push_speed(words, slot, spd),
        Op::Dirf { slot, dirf } => push_dirf(words, slot, dirf),
        Op::Snd { slot, snd } => push_snd(words, slot, snd),
        Op::SwReq { number, closed, on } => push_switch(words, number + 1, closed, on),
        Op::SwAck { number, closed, on } => push_acknowledged_switch(words, number + 1, closed, on),
        Op::SlotStat { slot, stat } => push_status(words, slot, stat),
        Op::Move { src, dest } => push_move(words, src, dest),
        Op::SlotRead { slot } => push_read(words, slot),
        Op::LocoAddr { high, low } => push_address(words, high, low),
        Op::SlotData(fields) => push_slot_data(words, &fields),
        Op::SlotWrite(fields) => push_written(words, &fields),
        Op::Imm { count, .. } => push_imm(words, count, im_bytes(*op)),
        _ => {}
    }
}

/// The locomotive that is requested.
#[tactic(auto, unfolding(crate::specs::Messages::taken_words))]
fn push_address(words: &mut Words, high: u8, low: u8)
    requires { array_vec_len words.old + 40 ≤ 400 }
    ensures { words.new.items ≡ words.old.items ++ taken_words high low }
{
    push_halves(words, "take locomotive ", high, low);
}

/// Returns the table of the standard's messages with an opcode.
#[tactic(auto, unfolding(crate::specs::Messages::standard_rows, crate::specs::Rows::fits, crate::specs::Rows::most_of, crate::specs::Rows::longest_after))]
fn standard_rows(opcode: u16) -> &'static [Row]
    ensures rows { rows_of result.now ≡ standard_rows opcode }
    ensures fits { IsTrue (fits (standard_rows opcode)) }
{
    match opcode {
        0xB4 => &LONG_ACKS,
        0xE7 => &SLOT_READS,
        0xEF => &SLOT_WRITES,
        _ => &MESSAGES,
    }
}

/// Returns the table of the makers' messages.
#[tactic(auto, unfolding(crate::specs::Messages::maker_rows, crate::specs::Rows::fits, crate::specs::Rows::most_of, crate::specs::Rows::longest_after))]
fn maker_rows() -> &'static [Row]
    ensures rows { rows_of result.now ≡ maker_rows }
    ensures fits { IsTrue (fits maker_rows) }
{
    &MAKER_MESSAGES
}

/// Whether makers added messages with this opcode and this second byte.
fn is_of_maker(opcode: u16, second: u16) -> bool
    ensures { result ≡ is_of_maker opcode second }
{
    match opcode {
        0xA3 | 0xD0 | 0xD4 | 0xE4 => true,
        0xE5 | 0xED => second == 15,
        _ => false,
    }
}

/// Returns the table for a whole message with this opcode and this second byte.
fn table(opcode: u16, second: u16) -> &'static [Row]
    ensures rows { rows_of result.now ≡ table_rows opcode second }
    ensures fits { IsTrue (fits (table_rows opcode second)) }
{
    if is_of_maker(opcode, second) {
        maker_rows()
    } else {
        standard_rows(opcode)
    }
}

/// The explanation of a whole message by a table.
fn push_by_table(words: &mut Words, bytes: &[u8])
    requires size { length bytes.now ≤ 127 }
    requires room { array_vec_len words.old ≤ 0 }
    ensures { words.new.items ≡ words.old.items ++ table_words bytes.now }
{
    let opcode = value_of(Field::Byte(0), bytes);
    let rows = table(opcode, value_of(Field::Byte(1), bytes));
    push_row(words, rows, bytes);
}

/// Appends why bytes are not a whole message.
fn push_fault(words: &mut Words, bytes: &[u8])
    requires fault { is_whole bytes.now ≡ false }
    requires room { array_vec_len words.old ≤ 0 }
    ensures { words.new.items ≡ words.old.items ++ fault_words bytes.now }
{
    match bytes {
        [128..=255, rest @ ..] if !are_data(rest) => push_text(words, "data above 7F"),
        [128..=255, ..] if !Msg::has_form(bytes) => push_text(words, "wrong length"),
        [128..=255, ..] => push_wrong_check(words, bytes),
        _ => push_text(words, "no opcode"),
    }
}

/// Appends that the last byte is a wrong check, and the right one.
#[tactic(auto, unfolding(crate::specs::Messages::wrong_check_words))]
fn push_wrong_check(words: &mut Words, bytes: &[u8])
    requires some { 0 < length bytes.now }
    requires room { array_vec_len words.old ≤ 0 }
    ensures { words.new.items ≡ words.old.items ++ wrong_check_words bytes.now }
{
    push_text(words, "wrong check byte, should be ");
    push_hex(words, check_of(&bytes[..bytes.len() - 1]) ^ 0xFF);
}

/// Whether each byte is below 128.
fn are_data(bytes: &[u8]) -> bool
    ensures { result ≡ are_data bytes.now }
{
    bytes.iter().all(|byte| *byte < 128)
}

/// Explains the bytes of a LocoNet message, the check last, in plain words (LocoNet Personal Use
/// Edition 1.0).
///
/// Every message of the standard is explained, including those that a command station ignores, and
/// others that are known by their makers' devices are named.
/// Slots have their own numbers; switches and sensors count from 1. The packet of OPC_IMM_PACKET is
/// explained by [`describe_packet`](crate::describe_packet). Bytes that are not a whole message give the
/// reason: `no opcode`, `data above 7F`, `wrong length`, or `wrong check byte, should be` and the right
/// one, the first that applies.
pub fn message_words(bytes: &[u8]) -> Words
    ensures { result.items ≡ message_words bytes.now }
{
    let mut words = Words::new();
    describe_message(&mut words, bytes);
    words
}

/// Writes [`message_words`] over the contents of an existing buffer, for a caller that explains
/// many messages.
pub fn describe_message(words: &mut Words, bytes: &[u8])
    ensures { words.new.items ≡ message_words bytes.now }
{
    words.clear();
    match Msg::whole(bytes) {
        Some(message) => push_whole(words, &message),
        None => push_fault(words, bytes),
    }
}

/// The explanation of a whole message.
fn push_whole(words: &mut Words, message: &Msg)
    requires { array_vec_len words.old ≤ 0 }
    ensures { words.new.items ≡ words.old.items ++ whole_words (op_of message.now) message.now }
{
    let op = read(message);
    if is_reported(&op) {
        push_op(words, &op);
    } else {
        push_by_table(words, message.bytes());
    }
}
