//! The text of an explanation, and the functions that append to it.
ghost use Rattle.std.specs.Prelude.{◌≡◌, ◌≤◌, ◌<◌, ◌+◌, ◌*◌, ◌/◌, ◌%◌, ◌++◌, length, [], ◌∷◌};
ghost use Rattle.std.specs.Fmt.{decimal};
ghost use Rattle.arrayvec.specs.ArrayVec.{array_vec_len};
ghost use Rattle.ln_ops.specs.Slot.{address_with};
ghost use Rattle.describe.specs.Pieces.{hex_pair, one_on, four_on, eight_on, functions_words, states_words};

use arrayvec::ArrayVec;
use text::{decimal_digits, hex_char, push_bytes};

/// An explanation: ASCII text without a line feed, at most 400 bytes.
pub type Words = ArrayVec<u8, 400>;

/// Appends a text.
pub(crate) fn push_text(words: &mut Words, text: &str)
    requires { array_vec_len words.old + length text.now ≤ 400 }
    ensures text { words.new.items ≡ words.old.items ++ text.now }
    ensures len { array_vec_len words.new ≡ array_vec_len words.old + length text.now }
{
    push_bytes(words, text.as_bytes());
}

/// Appends a small number in decimal digits, at most 5.
fn push_number(words: &mut Words, n: u16)
    requires { array_vec_len words.old + 5 ≤ 400 }
    ensures text { words.new.items ≡ words.old.items ++ decimal n }
    ensures len { array_vec_len words.new ≤ array_vec_len words.old + 5 }
{
    push_bytes(words, decimal_digits(u64::from(n)).as_slice());
}

/// Appends a label and a small number.
pub(crate) fn push_field(words: &mut Words, label: &str, n: u16)
    requires { array_vec_len words.old + length label.now + 5 ≤ 400 }
    ensures text { words.new.items ≡ words.old.items ++ (label.now ++ decimal n) }
    ensures len { array_vec_len words.new ≤ array_vec_len words.old + length label.now + 5 }
{
    push_text(words, label);
    push_number(words, n);
}

/// Appends a label and a byte in decimal digits.
pub(crate) fn push_byte(words: &mut Words, label: &str, n: u8)
    requires { array_vec_len words.old + length label.now + 5 ≤ 400 }
    ensures text { words.new.items ≡ words.old.items ++ (label.now ++ decimal n) }
    ensures len { array_vec_len words.new ≤ array_vec_len words.old + length label.now + 5 }
{
    push_field(words, label, u16::from(n));
}

/// Appends a label and an address, of which a message has two halves.
pub(crate) fn push_halves(words: &mut Words, label: &str, high: u8, low: u8)
    requires { array_vec_len words.old + length label.now + 5 ≤ 400 }
    ensures text { words.new.items
        ≡ words.old.items ++ (label.now ++ decimal (address_with high low)) }
    ensures len { array_vec_len words.new ≤ array_vec_len words.old + length label.now + 5 }
{
    push_field(words, label, u16::from(high) * 128 + u16::from(low));
}

/// Appends a byte as two hexadecimal digits.
pub(crate) fn push_hex(words: &mut Words, byte: u8)
    requires { array_vec_len words.old + 2 ≤ 400 }
    ensures text { words.new.items ≡ words.old.items ++ hex_pair byte }
    ensures len { array_vec_len words.new ≡ array_vec_len words.old + 2 }
{
    words.push(hex_char(byte / 16));
    words.push(hex_char(byte % 16));
}

/// Appends the name of a function if it is on.
fn push_one_on(words: &mut Words, number: u16, on: bool)
    requires { array_vec_len words.old + 7 ≤ 400 }
    ensures text { words.new.items ≡ words.old.items ++ one_on number on }
    ensures len { array_vec_len words.new ≤ array_vec_len words.old + 7 }
{
    if on {
        push_field(words, " F", number);
    }
}

/// Appends the names of those of four functions that are on, the first in bit 0.
#[tactic(auto, unfolding(crate::specs::Pieces::four_on))]
pub(crate) fn push_four_on(words: &mut Words, first: u16, bits: u16)
    requires room { array_vec_len words.old + 28 ≤ 400 }
    requires first { first ≤ 300 }
    ensures text { words.new.items ≡ words.old.items ++ four_on first bits }
    ensures len { array_vec_len words.new ≤ array_vec_len words.old + 28 }
{
    push_one_on(words, first, bits % 2 == 1);
    push_one_on(words, first + 1, bits / 2 % 2 == 1);
    push_one_on(words, first + 2, bits / 4 % 2 == 1);
    push_one_on(words, first + 3, bits / 8 % 2 == 1);
}

/// Appends the names of those of eight functions that are on, the first in bit 0.
#[tactic(auto, unfolding(crate::specs::Pieces::eight_on))]
pub(crate) fn push_eight_on(words: &mut Words, first: u16, bits: u16)
    requires room { array_vec_len words.old + 56 ≤ 400 }
    requires first { first ≤ 255 }
    ensures text { words.new.items ≡ words.old.items ++ eight_on first bits }
    ensures len { array_vec_len words.new ≤ array_vec_len words.old + 56 }
{
    push_four_on(words, first, bits);
    push_four_on(words, first + 4, bits / 16);
}

/// Appends the names of those of eight functions that are on, the first in bit 0, or that all are
/// off.
pub(crate) fn push_states(words: &mut Words, first: u16, bits: u16)
    requires room { array_vec_len words.old + 59 ≤ 400 }
    requires first { first ≤ 255 }
    ensures text { words.new.items ≡ words.old.items ++ states_words first bits }
    ensures len { array_vec_len words.new ≤ array_vec_len words.old + 59 }
{
    if bits == 0 {
        push_text(words, " all off");
    } else {
        push_eight_on(words, first, bits);
        push_text(words, " on");
    }
}

/// Appends the label of a group of functions and the names of those that are on, the first in bit
/// 0.
#[tactic(auto, unfolding(crate::specs::Pieces::functions_words))]
pub(crate) fn push_functions(words: &mut Words, label: &str, first: u16, bits: u16)
    requires label { length label.now ≤ 12 }
    requires first { first ≤ 255 }
    requires room { array_vec_len words.old + 80 ≤ 400 }
    ensures text { words.new.items ≡ words.old.items ++ functions_words label.now first bits }
    ensures len { array_vec_len words.new ≤ array_vec_len words.old + 80 }
{
    push_text(words, label);
    push_states(words, first, bits);
}
