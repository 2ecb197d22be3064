//! Numbers in decimal digits.
ghost use Rattle.std.specs.Prelude.{◌≡◌, ◌≤◌, ◌<◌, ◌++◌, ◌+◌, ◌/◌, ◌%◌, ◌∷◌, [], length, true};
ghost use Rattle.std.specs.Char.{is_ascii_digit};
ghost use Rattle.std.specs.Fmt.{decimal};
ghost use Rattle.std.specs.List.{list_all};
ghost use Rattle.std.specs.Str.Parse.{digits_value};
ghost use Rattle.arrayvec.specs.ArrayString.{array_string_len};
ghost use Rattle.arrayvec.specs.ArrayVec.{array_vec_len};
ghost use Rattle.text.specs.Decimal.{is_decimal, decimal_of};

use crate::push_ascii::PushAscii;
use arrayvec::{ArrayString, ArrayVec};

/// The most digits of a number that is read.
const MOST_DIGITS: usize = 7;

/// The decimal digits of a number, at most 20.
pub type Digits = ArrayVec<u8, 20>;

/// Whether a text has decimal digits alone.
#[inline]
pub fn are_digits(text: &[u8]) -> bool
    ensures { result ≡ list_all is_ascii_digit text.now }
{
    text.iter().all(u8::is_ascii_digit)
}

#[inline]
fn is_decimal(word: &[u8]) -> bool
    ensures { result ≡ is_decimal word.now }
{
    !word.is_empty() && word.len() <= MOST_DIGITS && are_digits(word)
}

#[inline]
fn decimal_value(word: &[u8]) -> u32
    requires { is_decimal word.now ≡ true }
    ensures { result ≡ digits_value 10 word.now }
{
    let mut value = 0u32;
    for digit in word {
        value = 10 * value + u32::from(*digit - b'0');
    }
    value
}

/// Returns the number written by one to seven decimal digits. Returns `None` for any other word.
#[inline]
pub fn read_decimal(word: &[u8]) -> Option<u32>
    ensures { result ≡ decimal_of word.now }
{
    if is_decimal(word) {
        Some(decimal_value(word))
    } else {
        None
    }
}

/// Appends two decimal digits.
#[inline]
fn push_two_digits<T: PushAscii>(text: &mut T, n: u8)
    requires range { n < 100 }
    requires room { length (T.bytes text.old) + 2 ≤ T.capacity }
    ensures { T.bytes text.new ≡ T.bytes text.old ++ (48 + n / 10) ∷ (48 + n % 10) ∷ [] }
{
    text.push_ascii(b'0' + n / 10);
    text.push_ascii(b'0' + n % 10);
}

/// Appends a number in decimal digits, for which there must be room.
pub fn push_decimal<T: PushAscii>(text: &mut T, n: u64)
    requires { length (T.bytes text.old) + length (decimal n) ≤ T.capacity }
    ensures { T.bytes text.new ≡ T.bytes text.old ++ decimal n }
{
    // Two digits at a time halve the divisions.
    match n {
        0..=9 => text.push_ascii(b'0' + n as u8),
        10..=99 => push_two_digits(text, n as u8),
        _ => {
            push_decimal(text, n / 100);
            push_two_digits(text, (n % 100) as u8);
        }
    }
}

/// Appends a number in decimal digits, at most 20.
pub fn push_number<const N: usize>(text: &mut ArrayString<N>, n: u64)
    requires { array_string_len text.old + 20 ≤ N }
    ensures text { text.new.bytes ≡ text.old.bytes ++ decimal n }
    ensures len { array_string_len text.new ≤ array_string_len text.old + 20 }
{
    push_decimal(text, n);
}

/// Returns `n` in decimal digits: at most 5 for a 16-bit number, at most 10 for a 32-bit number.
pub fn decimal_digits(n: u64) -> Digits
    ensures text { result.items ≡ decimal n }
    ensures small { n < 65536 → array_vec_len result ≤ 5 }
    ensures middle { n < 4294967296 → array_vec_len result ≤ 10 }
{
    let mut digits = Digits::new();
    push_decimal(&mut digits, n);
    digits
}
