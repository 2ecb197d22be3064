//! A whole message.
ghost use Rattle.std.specs.Prelude.{◌≡◌, ℕ, ◌<◌, ◌≤◌, ◌↔◌, ◌++◌, ◌∷◌, [], List, IsTrue, length, slice_index, Some, None, if◌then◌else◌};
ghost use Rattle.arrayvec.specs.ArrayVec.{array_vec_len};
ghost use Rattle.ln_frame.specs.Message.{message_len, are_data, xor_of, has_form, is_whole, is_body, check_of, IsWhole, BeginsWhole};

use arrayvec::ArrayVec;
use std::marker::Model;

/// The longest message, in bytes.
pub const MAX_LEN: usize = 127;

/// From here on a byte is an opcode, and below it is data.
pub const OPCODE: u8 = 0x80;

/// What the bytes of a message give together, by exclusive or.
const CHECKED: u8 = 0xFF;

/// A whole message of 2 to 127 bytes.
#[derive(Drop)]
pub struct Msg {
    bytes: ArrayVec<u8, MAX_LEN>,
}

impl Model for Msg {
    ghost Value = { List ℕ };

    ghost view = { λ m. m.bytes.items };

    ghost invariant = { λ m. IsWhole m.bytes.items };

    ghost inverse = { λ bytes. record { bytes = record { items = bytes } } };
}

impl Msg {
    /// The bytes, from the opcode to the check: 2 to 127 of them.
    #[inline]
    pub fn bytes(&self) -> &[u8]
        ensures value { result.now ≡ self.now }
        ensures whole { IsWhole result.now }
        // The first two say how many they are.
        ensures length { message_len (slice_index result.now 0) (slice_index result.now 1)
            ≡ Some (length result.now) }
        ensures shortest { 2 ≤ length result.now }
        ensures longest { length result.now ≤ 127 }
        // An opcode, followed by data.
        ensures opcode { 128 ≤ slice_index result.now 0 }
        ensures data { (i : ℕ) → 1 ≤ i → slice_index result.now i < 128 }
        // So a reader that knows all bytes but the check knows the message.
        ensures check { (body : List ℕ) (last : ℕ) → result.now ≡ body ++ last ∷ []
            → last ≡ check_of body }
    {
        self.bytes.as_slice()
    }

    /// Whether the bytes are a message but for their check: an opcode, followed by as many bytes of
    /// data as it requires.
    pub fn has_form(bytes: &[u8]) -> bool
        ensures { result ≡ has_form bytes.now }
    {
        match bytes {
            [opcode, second, ..] => {
                message_len(*opcode, *second) == Some(bytes.len()) && are_data(&bytes[1..])
            }
            _ => false,
        }
    }

    /// The message that the bytes are, or `None` where they have not its form or where their check
    /// is wrong.
    pub fn whole(bytes: &[u8]) -> Option<Self>
        ensures { result ≡ (if is_whole bytes.now then Some bytes.now else None) }
    {
        if !Self::has_form(bytes) || xor_of(bytes) != CHECKED {
            return None;
        }
        let mut message = ArrayVec::new();
        for byte in bytes {
            message.push(*byte);
        }
        Some(Msg { bytes: message })
    }

    /// Whether one more byte makes a whole message of these.
    pub fn is_body(body: &[u8]) -> bool
        ensures form { result ≡ is_body body.now }
        ensures exact { IsTrue result ↔ BeginsWhole body.now }
    {
        match body {
            [] => false,
            [opcode] => message_len(*opcode, 0) == Some(2),
            [opcode, second, ..] => {
                message_len(*opcode, *second) == Some(body.len() + 1) && are_data(&body[1..])
            }
        }
    }

    /// The message of these bytes and their check.
    pub fn sealed(body: &[u8]) -> Self
        requires { IsTrue (is_body body.now) }
        ensures whole { IsWhole result }
        ensures bytes { result ≡ body.now ++ check_of body.now ∷ [] }
    {
        let mut bytes = ArrayVec::new();
        for byte in body {
            bytes.push(*byte);
        }
        bytes.push(xor_of(body) ^ CHECKED);
        Msg { bytes }
    }

    /// The message, where the check byte is right. None of the bytes are left.
    pub(crate) fn checked(bytes: &mut ArrayVec<u8, MAX_LEN>) -> Option<Self>
        requires { IsTrue (has_form bytes.old.items) }
        ensures message { result
            ≡ (if is_whole bytes.old.items then Some bytes.old.items else None) }
        ensures after { bytes.new.items ≡ [] }
    {
        if xor_of(bytes.as_slice()) == CHECKED {
            Some(Msg {
                bytes: bytes.take(),
            })
        } else {
            bytes.clear();
            None
        }
    }
}

/// A body with its check byte is a whole message: a law without code.
pub fn sealed_is_whole()
    ensures { (body : List ℕ) → ((i : ℕ) → slice_index body i < 256) → IsTrue (is_body body)
        → IsWhole (body ++ check_of body ∷ []) }
{}

/// Returns the number of bytes of a message that begins with these two, or `None` if no message does:
/// 2 from opcode 80 on, 4 from A0, 6 from C0, and from E0 on the second byte, 3 to 127.
pub fn message_len(opcode: u8, second: u8) -> Option<usize>
    ensures { result ≡ message_len opcode second }
{
    match opcode {
        0x00..=0x7F => None,
        0x80..=0x9F => Some(2),
        0xA0..=0xBF => Some(4),
        0xC0..=0xDF => Some(6),
        0xE0..=0xFF => match second {
            3..=127 => Some(second as usize),
            _ => None,
        },
    }
}

fn are_data(bytes: &[u8]) -> bool
    ensures { result ≡ are_data bytes.now }
{
    bytes.iter().all(|byte| *byte < OPCODE)
}

fn xor_of(bytes: &[u8]) -> u8
    ensures { result ≡ xor_of bytes.now }
{
    bytes.iter().fold(0, |sum, byte| sum ^ byte)
}
