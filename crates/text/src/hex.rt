//! Bytes and their hexadecimal digits.
ghost use Rattle.std.specs.Prelude.{◌≡◌, ◌≤◌, ◌<◌, ◌+◌, ◌*◌, ◌++◌, length};
ghost use Rattle.text.specs.Hex.{digit_of, both, hex_char, hex_word, hex_words, pair_of};

use crate::push_ascii::PushAscii;

/// The digits of the numbers below 16.
const HEX_DIGITS: [u8; 16] = *b"0123456789ABCDEF";

/// The hexadecimal digit of a number below 16, in upper case.
pub fn hex_char(n: u8) -> u8
    requires { n < 16 }
    ensures digit { result ≡ hex_char n }
    ensures ascii { result < 128 }
{
    HEX_DIGITS[n as usize]
}

/// Appends a byte as a space and two hexadecimal digits.
fn push_hex_word<T: PushAscii>(text: &mut T, byte: u8)
    requires { length (T.bytes text.old) + 3 ≤ T.capacity }
    ensures { T.bytes text.new ≡ T.bytes text.old ++ hex_word byte }
{
    text.push_ascii(b' ');
    text.push_ascii(hex_char(byte / 16));
    text.push_ascii(hex_char(byte % 16));
}

/// Appends each byte as a space and two hexadecimal digits in upper case, for which there must be
/// room.
pub fn push_hex_words<T: PushAscii>(text: &mut T, bytes: &[u8])
    requires { length (T.bytes text.old) + 3 * length bytes.now ≤ T.capacity }
    ensures text { T.bytes text.new ≡ T.bytes text.old ++ hex_words bytes.now }
    ensures len { length (T.bytes text.new) ≡ length (T.bytes text.old) + 3 * length bytes.now }
{
    for byte in bytes {
        push_hex_word(text, *byte);
    }
}

/// Returns the byte written by a word of two hexadecimal digits, the high digit first. Digits may
/// be upper or lower case. Returns `None` for any other word.
pub fn read_hex_pair(word: &[u8]) -> Option<u8>
    ensures { result ≡ pair_of word.now }
{
    match word {
        [high, low] => read_hex_digits(*high, *low),
        _ => None,
    }
}

/// Returns the byte written by two hexadecimal digits of either case.
#[inline]
pub fn read_hex_digits(high: u8, low: u8) -> Option<u8>
    ensures { result ≡ both (digit_of high) (digit_of low) }
{
    Some(16 * digit_value(high)? + digit_value(low)?)
}

#[inline]
fn digit_value(digit: u8) -> Option<u8>
    ensures { result ≡ digit_of digit }
{
    match digit {
        b'0'..=b'9' => Some(digit - b'0'),
        b'A'..=b'F' => Some(digit - b'A' + 10),
        b'a'..=b'f' => Some(digit - b'a' + 10),
        _ => None,
    }
}
