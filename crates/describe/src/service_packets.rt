//! Explanations of packets of the programming track.
ghost use Rattle.std.specs.Prelude.{◌≡◌, ◌≤◌, ◌<◌, ◌+◌, ◌++◌, IsTrue, length};
ghost use Rattle.arrayvec.specs.ArrayVec.{array_vec_len};
ghost use Rattle.service_mode.specs.Spelling.{is_legal};
ghost use Rattle.describe.specs.ServicePackets.{cv_words, direct_words, on_words, register_by, register_words, service_words};

use crate::pieces::{Words, push_byte, push_field, push_text};
use dcc_packet::Packet;
use service_mode::{Instruction, ServicePacket, read};

/// A label and the number of the variable at an address.
#[tactic(auto, unfolding(crate::specs::ServicePackets::cv_words))]
fn push_cv(words: &mut Words, label: &str, address: u16)
    requires address { address < 1024 }
    requires room { array_vec_len words.old + length label.now + 5 ≤ 400 }
    ensures text { words.new.items ≡ words.old.items ++ cv_words label.now address }
    ensures len { array_vec_len words.new ≤ array_vec_len words.old + length label.now + 5 }
{
    push_field(words, label, address + 1);
}

/// `on` or `off`.
#[tactic(auto, unfolding(crate::specs::ServicePackets::on_words))]
fn push_on(words: &mut Words, on: bool)
    requires { array_vec_len words.old + 3 ≤ 400 }
    ensures text { words.new.items ≡ words.old.items ++ on_words on }
    ensures len { array_vec_len words.new ≤ array_vec_len words.old + 3 }
{
    push_text(words, if on { "on" } else { "off" });
}

/// An instruction of direct mode.
fn push_direct(words: &mut Words, instruction: Instruction)
    requires legal { IsTrue (is_legal instruction) }
    requires room { array_vec_len words.old + 60 ≤ 400 }
    ensures text { words.new.items ≡ words.old.items ++ direct_words instruction }
    ensures len { array_vec_len words.new ≤ array_vec_len words.old + 60 }
{
    match instruction {
        Instruction::VerifyByte { address, value } => {
            push_byte(words, "verify ", value);
            push_cv(words, " in CV ", address);
        }
        Instruction::WriteByte { address, value } => {
            push_byte(words, "write ", value);
            push_cv(words, " to CV ", address);
        }
        Instruction::VerifyBit { address, bit, on } => {
            push_byte(words, "verify that bit ", bit);
            push_cv(words, " of CV ", address);
            push_text(words, " is ");
            push_on(words, on);
        }
        Instruction::WriteBit { address, bit, on } => {
            push_byte(words, "turn bit ", bit);
            push_cv(words, " of CV ", address);
            push_text(words, " ");
            push_on(words, on);
        }
    }
}

/// A packet of register mode, by its two bytes before the check.
fn push_register(words: &mut Words, first: u8, value: u8)
    requires { array_vec_len words.old + 60 ≤ 400 }
    ensures text { words.new.items ≡ words.old.items ++ register_by first value }
    ensures len { array_vec_len words.new ≤ array_vec_len words.old + 60 }
{
    match first / 8 {
        15 => {
            push_byte(words, "write ", value);
            push_byte(words, " to register ", first % 8 + 1);
        }
        14 => {
            push_byte(words, "verify ", value);
            push_byte(words, " in register ", first % 8 + 1);
        }
        _ => push_text(words, "unknown form"),
    }
}

/// A packet with a right check that is not one of direct mode.
#[tactic(auto, unfolding(crate::specs::ServicePackets::register_words))]
fn push_other(words: &mut Words, bytes: &[u8])
    requires { array_vec_len words.old + 60 ≤ 400 }
    ensures text { words.new.items ≡ words.old.items ++ register_words bytes.now }
    ensures len { array_vec_len words.new ≤ array_vec_len words.old + 60 }
{
    match bytes {
        [first, value, _] => push_register(words, *first, *value),
        _ => push_text(words, "unknown form"),
    }
}

/// Explains the bytes of a packet of the programming track, the check last, in plain words (S-9.2.3,
/// direct mode and register mode). Variables and registers count from 1.
///
/// Fewer than 3 or more than 6 bytes give `wrong length`, a wrong check gives `wrong check`, and what is
/// of neither mode `unknown form`.
pub fn service_words(bytes: &[u8]) -> Words
    ensures { result.items ≡ service_words bytes.now }
{
    let mut words = Words::new();
    push_service(&mut words, bytes);
    words
}

/// The explanation of a packet of the programming track.
fn push_service(words: &mut Words, bytes: &[u8])
    requires { array_vec_len words.old + 60 ≤ 400 }
    ensures text { words.new.items ≡ words.old.items ++ service_words bytes.now }
{
    let Some(packet) = Packet::of(bytes) else {
        return push_text(words, "wrong length");
    };
    if !packet.is_checked() {
        return push_text(words, "wrong check");
    }
    match read(bytes) {
        Some(ServicePacket::Reset) => push_text(words, "reset"),
        Some(ServicePacket::Direct(instruction)) => push_direct(words, instruction),
        None => push_other(words, bytes),
    }
}
