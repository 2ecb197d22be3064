//! A line of text, and the functions that append to it.
ghost use Rattle.std.specs.Prelude.{◌≡◌, ◌≤◌, ◌+◌, ◌*◌, ◌++◌, length};
ghost use Rattle.std.specs.Fmt.{decimal};
ghost use Rattle.arrayvec.specs.ArrayString.{array_string_len};
ghost use Rattle.show_text.specs.Lines.{bits_text};

use arrayvec::ArrayString;
use text::{PushAscii, push_decimal};

/// A line of text, without its line feed.
pub type Line = ArrayString<640>;

/// Appends a number in decimal digits, at most 20.
pub(crate) fn push_count(line: &mut Line, n: u64)
    requires { array_string_len line.old + 20 ≤ 640 }
    ensures text { line.new.bytes ≡ line.old.bytes ++ decimal n }
    ensures len { array_string_len line.new ≤ array_string_len line.old + 20 }
{
    push_decimal(line, n);
}

/// Appends a label and a small number.
pub(crate) fn push_field(line: &mut Line, label: &str, n: u16)
    requires { array_string_len line.old + length label.now + 5 ≤ 640 }
    ensures text { line.new.bytes ≡ line.old.bytes ++ (label.now ++ decimal n) }
    ensures len { array_string_len line.new ≤ array_string_len line.old + length label.now + 5 }
{
    line.push_str(label);
    push_decimal(line, u64::from(n));
}

/// Appends the lowest `count` bits of a number, each as a digit, bit 0 first.
pub(crate) fn push_bits(line: &mut Line, bits: u16, count: u8)
    requires range { count ≤ 16 }
    requires room { array_string_len line.old + count ≤ 640 }
    ensures { line.new.bytes ≡ line.old.bytes ++ bits_text count bits }
{
    for k in 0..count {
        line.push_ascii(b'0' + ((bits >> k) % 2) as u8);
    }
}
