//! Captured bytes as a text.
ghost use Rattle.std.specs.Prelude.{◌≡◌, ◌++◌, ◌<◌, IfOk, OnOk};
ghost use Rattle.text.specs.Hex.{hex_words};
ghost use Rattle.explain.specs.Captures.{capture_text, part_lines};
ghost use Rattle.explain.specs.HexText.{hex_line, hex_pair};

use crate::parts::{cut_part, split_part};
use std::alloc::{AllocError, Global};
use text::hex_char;

/// Appends a byte as two digits.
fn push_pair(byte: u8, text: &mut Vec<u8>) -> Result<(), AllocError>
    ensures { OnOk result (text.new.items ≡ text.old.items ++ hex_pair byte) }
{
    text.push(hex_char(byte / 16))?;
    text.push(hex_char(byte % 16))?;
    Ok(())
}

/// Appends each byte as a space and two digits.
fn push_words(bytes: &[u8], text: &mut Vec<u8>) -> Result<(), AllocError>
    ensures { OnOk result (text.new.items ≡ text.old.items ++ hex_words bytes.now) }
{
    for byte in bytes {
        text.push(b' ')?;
        push_pair(*byte, text)?;
    }
    Ok(())
}

/// Appends bytes as a line of pairs of digits; nothing for none.
pub(crate) fn push_hex_line(bytes: &[u8], text: &mut Vec<u8>) -> Result<(), AllocError>
    ensures { OnOk result (text.new.items ≡ text.old.items ++ hex_line bytes.now) }
{
    let [first, rest @ ..] = bytes else {
        return Ok(());
    };
    push_pair(*first, text)?;
    push_words(rest, text)?;
    text.push(b'\n')?;
    Ok(())
}

/// Appends the lines of a part.
#[tactic(auto, unfolding(crate::specs::Captures::part_lines))]
fn push_part(part: &[u8], text: &mut Vec<u8>) -> Result<(), AllocError>
    ensures { OnOk result (text.new.items ≡ text.old.items ++ part_lines part.now) }
{
    let (front, back) = split_part(part);
    push_hex_line(front, text)?;
    push_hex_line(back, text)
}

/// Returns captured bytes as a text of pairs of digits: a line for each message, and one for the bytes
/// behind it that belong to none.
///
/// # Errors
///
/// Out of memory.
pub fn capture_text(alloc: Global, bytes: &[u8]) -> Result<Vec<u8>, AllocError>
    ensures { IfOk result (λ text. text.items ≡ capture_text bytes.now) }
{
    let mut text = Vec::new(alloc);
    let mut rest = bytes;
    while !rest.is_empty() {
        let (part, after) = cut_part(rest);
        push_part(part, &mut text)?;
        rest = after;
    }
    Ok(text)
}
