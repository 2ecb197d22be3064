//! The messages in captured bytes, and the bytes that are skipped.
ghost use Rattle.std.specs.Prelude.{◌≡◌, ◌<◌, ◌≤◌, ◌++◌, ◌∷◌, OnOk, length, position};
ghost use Rattle.std.specs.List.{list_any, position_or_len};
ghost use Rattle.explain.specs.LineKinds.{set_off};
ghost use Rattle.describe.specs.Messages.{message_words};
ghost use Rattle.explain.specs.Parts.{back_of, begins_whole, front_len, front_note, front_of, has_several, is_opcode, part_note, parts_note, parts_of, skipped_note};

use arrayvec::ArrayVec;
use describe::{Words, describe_message};
use ln_frame::{Msg, OPCODE, message_len};
use std::alloc::AllocError;
use text::push_hex_words;

/// The bytes of a line, each as a space and two digits.
type HexWords = ArrayVec<u8, 600>;

/// Returns the index of the first opcode, or `None` if there is none.
fn opcode_at(bytes: &[u8]) -> Option<usize>
    ensures { result ≡ position is_opcode bytes.now }
{
    bytes.iter().position(|byte| *byte >= OPCODE)
}

/// Returns the number of bytes before the first opcode.
#[tactic(auto, using(crate::proofs::Cuts::data_bytes))]
fn data_len(bytes: &[u8]) -> usize
    ensures len { result ≡ position_or_len is_opcode bytes.now }
    ensures most { result ≤ length bytes.now }
{
    match opcode_at(bytes) {
        Some(len) => len,
        None => bytes.len(),
    }
}

/// Splits off the first part: one byte, and the data after it.
pub(crate) fn cut_part(bytes: &[u8]) -> (&[u8], &[u8])
    requires { 0 < length bytes.now }
    ensures parts { parts_of bytes.now ≡ result.0.now ∷ parts_of result.1.now }
    ensures shorter { length result.1.now < length bytes.now }
    ensures within { length result.0.now ≤ length bytes.now }
{
    bytes.split_at(1 + data_len(&bytes[1..]))
}

/// Returns the number of bytes of the message that a part begins with.
fn front_len(part: &[u8]) -> usize
    ensures { result ≡ front_len part.now }
{
    match part {
        [opcode, second, ..] => match message_len(*opcode, *second) {
            Some(len) => len,
            None => part.len(),
        },
        _ => part.len(),
    }
}

/// Splits a part into the message that it begins with, which may be broken off, and the bytes
/// behind it.
#[tactic(auto, using(crate::proofs::Cuts::whole_part))]
pub(crate) fn split_part(part: &[u8]) -> (&[u8], &[u8])
    ensures front { result.0.now ≡ front_of part.now }
    ensures back { result.1.now ≡ back_of part.now }
    ensures front_len { length result.0.now ≤ length part.now }
    ensures back_len { length result.1.now ≤ length part.now }
{
    let len = front_len(part);
    if len < part.len() {
        part.split_at(len)
    } else {
        (part, &[])
    }
}

/// Appends which bytes are skipped, if there are any.
#[tactic(auto, unfolding(crate::specs::Parts::skipped_note))]
fn push_skipped(bytes: &[u8], text: &mut Vec<u8>) -> Result<(), AllocError>
    requires { length bytes.now ≤ 200 }
    ensures { OnOk result (text.new.items ≡ text.old.items ++ skipped_note bytes.now) }
{
    if bytes.is_empty() {
        return Ok(());
    }
    let mut words = HexWords::new();
    push_hex_words(&mut words, bytes);
    text.extend_from_slice(b"  skipped")?;
    text.extend_from_slice(words.as_slice())
}

/// Appends two spaces and the explanation of a message; `words` is a buffer for it.
fn push_explained(front: &[u8], words: &mut Words, text: &mut Vec<u8>) -> Result<(), AllocError>
    ensures { OnOk result (text.new.items ≡ text.old.items ++ set_off (message_words front.now)) }
{
    describe_message(words, front);
    push_words(words, text)
}

/// Appends two spaces and an explanation, if there is one.
pub(crate) fn push_words(words: &Words, text: &mut Vec<u8>) -> Result<(), AllocError>
    ensures { OnOk result (text.new.items ≡ text.old.items ++ set_off words.now.items) }
{
    if words.is_empty() {
        return Ok(());
    }
    text.extend_from_slice(b"  ")?;
    text.extend_from_slice(words.as_slice())
}

/// Appends the explanation of a message, or that it is skipped.
#[tactic(auto, unfolding(crate::specs::Parts::front_note))]
fn push_front(front: &[u8], words: &mut Words, text: &mut Vec<u8>) -> Result<(), AllocError>
    requires { length front.now ≤ 200 }
    ensures { OnOk result (text.new.items ≡ text.old.items ++ front_note front.now) }
{
    if Msg::has_form(front) {
        push_explained(front, words, text)
    } else {
        push_skipped(front, text)
    }
}

/// Appends what is in a part.
#[tactic(auto, unfolding(crate::specs::Parts::part_note))]
fn push_part(part: &[u8], words: &mut Words, text: &mut Vec<u8>) -> Result<(), AllocError>
    requires { length part.now ≤ 200 }
    ensures { OnOk result (text.new.items ≡ text.old.items ++ part_note part.now) }
{
    let (front, back) = split_part(part);
    push_front(front, words, text)?;
    push_skipped(back, text)
}

/// Appends what is in bytes, part by part.
pub(crate) fn push_parts(
    bytes: &[u8],
    words: &mut Words,
    text: &mut Vec<u8>,
) -> Result<(), AllocError>
    requires { length bytes.now ≤ 200 }
    ensures { OnOk result (text.new.items ≡ text.old.items ++ parts_note (parts_of bytes.now)) }
{
    let mut rest = bytes;
    while !rest.is_empty() {
        let (part, after) = cut_part(rest);
        push_part(part, words, text)?;
        rest = after;
    }
    Ok(())
}

/// Whether a part begins with a whole message.
fn begins_whole(part: &[u8]) -> bool
    ensures { result ≡ begins_whole part.now }
{
    Msg::whole(split_part(part).0).is_some()
}

/// Whether bytes have a whole message, and more than it.
pub(crate) fn has_several(bytes: &[u8]) -> bool
    ensures { result ≡ has_several bytes.now }
{
    has_whole(bytes) && Msg::whole(bytes).is_none()
}

/// Whether a part of the bytes begins with a whole message.
fn has_whole(bytes: &[u8]) -> bool
    ensures { result ≡ list_any begins_whole (parts_of bytes.now) }
{
    let mut rest = bytes;
    while !rest.is_empty() {
        let (part, after) = cut_part(rest);
        if begins_whole(part) {
            return true;
        }
        rest = after;
    }
    false
}
