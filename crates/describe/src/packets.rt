//! Explanations of DCC packets.
ghost use Rattle.std.specs.Prelude.{◌≡◌, ◌≤◌, ◌+◌, ◌++◌, IsTrue, codes, length};
ghost use Rattle.arrayvec.specs.ArrayVec.{array_vec_len};
ghost use Rattle.describe.specs.Pieces.{Appends};
ghost use Rattle.describe.specs.Rows.{fits, rows_of};
ghost use Rattle.describe.specs.Packets.{accessory_rows, accessory_words, address_words, both_words, direction_words, group_words, instr_words, instruction_rows, instruction_words, packet_words, all_words, requested_words, long_words, step_28_words, step_words, switch_words, unread_words};

use crate::fields::light_and_four;
use crate::packet_rows::{
    ACCESSORIES, ADVANCED_OPERATIONS, CONTROLS, FEATURE_EXPANSIONS, SPEEDS_AND_FUNCTIONS, VARIABLES,
};
use crate::pieces::{Words, push_field, push_functions, push_text};
use crate::rows::{Row, push_row};
use dcc_packet::{Address, Instr, Packet, read};

/// `locomotive A`.
fn push_address(words: &mut Words, address: Address)
    requires { array_vec_len words.old + 40 ≤ 400 }
    ensures { Appends (address_words address) 40 words.old words.new }
{
    match address {
        Address::Short(number) => push_field(words, "locomotive ", u16::from(number)),
        Address::Long(number) => {
            push_field(words, "locomotive ", number);
            push_text(words, " (long address)");
        }
    }
}

/// `, forward` or `, reverse`.
pub(crate) fn push_direction(words: &mut Words, forward: bool)
    requires { array_vec_len words.old + 9 ≤ 400 }
    ensures { Appends (direction_words forward) 9 words.old words.new }
{
    push_text(words, if forward { ", forward" } else { ", reverse" });
}

/// `stop`, `emergency stop` or `step N of M`.
fn push_step(words: &mut Words, code: u8, of: u16)
    requires { array_vec_len words.old + 19 ≤ 400 }
    ensures { Appends (step_words code of) 19 words.old words.new }
{
    match code {
        0 => push_text(words, "stop"),
        1 => push_text(words, "emergency stop"),
        _ => {
            push_field(words, "step ", u16::from(code - 1));
            push_field(words, " of ", of);
        }
    }
}

/// The same for 28 steps, by the five speed bits of the packet.
fn push_step_28(words: &mut Words, low: u8)
    requires { array_vec_len words.old + 19 ≤ 400 }
    ensures { Appends (step_28_words low) 19 words.old words.new }
{
    match 2 * (low % 16) + low / 16 % 2 {
        0..=1 => push_text(words, "stop"),
        2..=3 => push_text(words, "emergency stop"),
        number => {
            push_field(words, "step ", u16::from(number - 3));
            push_text(words, " of 28");
        }
    }
}

/// A speed of five bits; the packet alone does not show whether it means 14 or 28 steps.
fn push_both(words: &mut Words, low: u8)
    requires { array_vec_len words.old + 60 ≤ 400 }
    ensures { Appends (both_words low) 60 words.old words.new }
{
    push_step(words, low % 16, 14);
    if low > 1 {
        push_text(
            words,
            if low / 16 % 2 == 1 {
                " and F0, or "
            } else {
                ", or "
            },
        );
        push_step_28(words, low);
    }
}

/// `locomotive A: `, before its instruction.
fn push_address_before(words: &mut Words, address: Address)
    requires { array_vec_len words.old + 42 ≤ 400 }
    ensures { Appends (address_words address ++ codes ": ") 42 words.old words.new }
{
    push_address(words, address);
    push_text(words, ": ");
}

/// An address and which functions of a group are on, the first in bit 0.
fn push_group(words: &mut Words, address: Address, label: &str, first: u16, bits: u16)
    requires label { length label.now ≤ 10 }
    requires first { first ≤ 255 }
    requires room { array_vec_len words.old + 140 ≤ 400 }
    ensures { Appends (group_words address label.now first bits) 140 words.old words.new }
{
    push_address_before(words, address);
    push_functions(words, label, first, bits);
}

/// `turnout N thrown, on`.
#[tactic(auto, unfolding(crate::specs::Packets::switch_words))]
pub(crate) fn push_switch(words: &mut Words, number: u16, closed: bool, on: bool)
    requires { array_vec_len words.old + 40 ≤ 400 }
    ensures { Appends (switch_words number closed on) 40 words.old words.new }
{
    push_field(words, "turnout ", number);
    push_text(words, if closed { " closed" } else { " thrown" });
    push_text(words, if on { ", on" } else { ", off" });
}

/// The explanation of an instruction.
fn push_instr(words: &mut Words, instr: Instr)
    requires { array_vec_len words.old + 140 ≤ 400 }
    ensures { Appends (instr_words instr) 140 words.old words.new }
{
    match instr {
        Instr::Idle => push_text(words, "idle"),
        Instr::Reset => push_text(words, "all decoders: reset"),
        Instr::StopAll { emergency: true } => push_text(words, "all locomotives: emergency stop"),
        Instr::StopAll { emergency: false } => push_text(words, "all locomotives: stop"),
        Instr::Speed { address, d, low } => {
            push_address_before(words, address);
            push_both(words, low);
            push_direction(words, d);
        }
        Instr::Speed128 { address, d, s } => {
            push_address_before(words, address);
            push_step(words, s, 128);
            push_direction(words, d);
        }
        Instr::GroupOne { address, bits } => {
            push_group(words, address, "F0 to F4:", 0, light_and_four(bits));
        }
        Instr::GroupTwo { address, bits } => {
            push_group(words, address, "F5 to F8:", 5, u16::from(bits));
        }
        Instr::GroupThree { address, bits } => {
            push_group(words, address, "F9 to F12:", 9, u16::from(bits));
        }
        Instr::Accessory {
            module,
            pair,
            closed,
            on,
        } => push_switch(
            words,
            4 * (module.number() - 1) + u16::from(pair) + 1,
            closed,
            on,
        ),
    }
}

/// Returns the table of an instruction, by bits 7 to 5 of its first byte.
#[tactic(auto, unfolding(crate::specs::Packets::instruction_rows, crate::specs::Rows::fits, crate::specs::Rows::most_of, crate::specs::Rows::longest_after))]
fn instruction_rows(kind: u8) -> &'static [Row]
    ensures rows { rows_of result.now ≡ instruction_rows kind }
    ensures fits { IsTrue (fits (instruction_rows kind)) }
{
    match kind {
        0 => &CONTROLS,
        1 => &ADVANCED_OPERATIONS,
        6 => &FEATURE_EXPANSIONS,
        7 => &VARIABLES,
        _ => &SPEEDS_AND_FUNCTIONS,
    }
}

/// Returns the table of instructions to accessory decoders.
#[tactic(auto, unfolding(crate::specs::Packets::accessory_rows, crate::specs::Rows::fits, crate::specs::Rows::most_of, crate::specs::Rows::longest_after))]
fn accessory_rows() -> &'static [Row]
    ensures rows { rows_of result.now ≡ accessory_rows }
    ensures fits { IsTrue (fits accessory_rows) }
{
    &ACCESSORIES
}

/// An instruction to a locomotive that no decoder of this project obeys, by its bytes, the check
/// last.
#[tactic(auto, unfolding(crate::specs::Packets::instruction_words))]
fn push_instruction(words: &mut Words, bytes: &[u8])
    requires size { length bytes.now ≤ 6 }
    requires room { array_vec_len words.old + 250 ≤ 400 }
    ensures { Appends (instruction_words bytes.now) 250 words.old words.new }
{
    match bytes {
        [first, _, ..] => push_row(words, instruction_rows(*first / 32), bytes),
        _ => push_text(words, "unknown form"),
    }
}

/// An instruction to accessory decoders that none of this project obeys, by the packet.
#[tactic(auto, unfolding(crate::specs::Packets::accessory_words))]
fn push_accessory(words: &mut Words, bytes: &[u8])
    requires size { length bytes.now ≤ 6 }
    requires room { array_vec_len words.old + 250 ≤ 400 }
    ensures { Appends (accessory_words bytes.now) 250 words.old words.new }
{
    push_row(words, accessory_rows(), bytes);
}

/// An address and an instruction that no decoder of this project obeys, by its bytes, the check
/// last.
#[tactic(auto, unfolding(crate::specs::Packets::requested_words))]
fn push_requested(words: &mut Words, address: Address, requested: &[u8])
    requires size { length requested.now ≤ 6 }
    requires room { array_vec_len words.old + 300 ≤ 400 }
    ensures { Appends (requested_words address requested.now) 300 words.old words.new }
{
    push_address_before(words, address);
    push_instruction(words, requested);
}

/// The explanation of the bytes after the first of a two-byte address, the check last.
#[tactic(auto, unfolding(crate::specs::Packets::long_words))]
fn push_long(words: &mut Words, high: u8, requested: &[u8])
    requires low { 192 ≤ high }
    requires high { high ≤ 231 }
    requires size { length requested.now ≤ 6 }
    requires room { array_vec_len words.old + 300 ≤ 400 }
    ensures { Appends (long_words high requested.now) 300 words.old words.new }
{
    match requested {
        [low, requested @ ..] => push_requested(
            words,
            Address::Long(u16::from(high - 192) * 256 + u16::from(*low)),
            requested,
        ),
        [] => push_text(words, "unknown form"),
    }
}

/// An instruction to all locomotives that no decoder of this project obeys, by its bytes, the check
/// last.
fn push_all(words: &mut Words, requested: &[u8])
    requires size { length requested.now ≤ 6 }
    requires room { array_vec_len words.old + 300 ≤ 400 }
    ensures { Appends (all_words requested.now) 300 words.old words.new }
{
    push_text(words, "all locomotives: ");
    push_instruction(words, requested);
}

/// The explanation of a packet with a correct check that no decoder of this project obeys, by the
/// address partitions (2.1).
fn push_unread(words: &mut Words, bytes: &[u8])
    requires size { length bytes.now ≤ 6 }
    requires room { array_vec_len words.old + 300 ≤ 400 }
    ensures { Appends (unread_words bytes.now) 300 words.old words.new }
{
    match bytes {
        [0, requested @ ..] => push_all(words, requested),
        [number @ 1..=127, requested @ ..] => push_requested(
            words,
            Address::Short(*number),
            requested,
        ),
        [high @ 192..=231, requested @ ..] => push_long(words, *high, requested),
        [_, ..] => push_accessory(words, bytes),
        [] => push_text(words, "unknown form"),
    }
}

/// The explanation of a packet.
pub(crate) fn push_packet(words: &mut Words, bytes: &[u8])
    requires { array_vec_len words.old + 300 ≤ 400 }
    ensures { Appends (packet_words bytes.now) 300 words.old words.new }
{
    let Some(packet) = Packet::of(bytes) else {
        return push_text(words, "wrong length");
    };
    if !packet.is_checked() {
        return push_text(words, "wrong check");
    }
    match read(&packet) {
        Some(instr) => push_instr(words, instr),
        None => push_unread(words, packet.bytes()),
    }
}

/// Writes what the bytes of a DCC packet say, the check last, in plain words (S-9.2 and S-9.2.1), over
/// the contents of a buffer.
///
/// Every form that a receiver may meet is explained, including those that no decoder of this
/// project obeys. Functions, steps and variables have the standard's numbers; switches and signals
/// count from 1, four to a decoder, the first of decoder 1. Fewer than 3 or more than 6 bytes give
/// `wrong length`, and a wrong check gives `wrong check`.
pub fn describe_packet(words: &mut Words, bytes: &[u8])
    ensures { words.new.items ≡ packet_words bytes.now }
{
    words.clear();
    push_packet(words, bytes);
}
