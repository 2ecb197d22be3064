//! The messages of a log as hex text.
ghost use Rattle.std.specs.Prelude.{◌≡◌, ◌≤◌, ◌++◌, IfOk, OnOk, length};
ghost use Rattle.explain.specs.HexText.{before_two_spaces, bytes_in, hex_line_of, hex_text, message_in_line, message_in_text, pairs_in, without_explanation};

use crate::brackets::without_brackets;
use crate::capture::push_hex_line;
use crate::lines::body_and_end;
use ln_frame::Msg;
use loconet_tcp::{Bytes, LONGEST_LINE, bytes_of, leading_bytes};
use std::alloc::{AllocError, Global};
use text::{cut_piece, split_at_line_feed};

/// Returns the bytes of a text whose words are all pairs of digits; otherwise none.
fn pairs_in(text: &[u8]) -> Bytes
    requires { length text.now ≤ 400 }
    ensures { result.items ≡ pairs_in text.now }
{
    match bytes_of(text) {
        Some(bytes) => bytes,
        None => Bytes::new(),
    }
}

/// Returns the bytes of the message in a line of at most 400 characters, by its first word; none if
/// it has no message.
fn bytes_in(line: &[u8]) -> Bytes
    requires { length line.now ≤ 400 }
    ensures { result.items ≡ bytes_in line.now }
{
    let (first, rest) = cut_piece(line);
    if first == b"message".as_slice() || first == b"msg".as_slice() {
        return leading_bytes(rest);
    }
    if first == b"reply".as_slice() {
        return pairs_in(cut_piece(rest).1);
    }
    if first == b"RECEIVE".as_slice() || first == b"SEND".as_slice() {
        return pairs_in(rest);
    }
    pairs_in(without_brackets(line))
}

/// Returns the message in a text of at most 400 characters, if it has a whole one.
fn message_in_text(text: &[u8]) -> Option<Msg>
    ensures { result ≡ message_in_text text.now }
{
    if text.len() > LONGEST_LINE {
        return None;
    }
    Msg::whole(bytes_in(text).as_slice())
}

/// Returns the text before the first two spaces.
fn before_two_spaces(text: &[u8]) -> &[u8]
    ensures { result.now ≡ before_two_spaces text.now }
{
    for i in 0..text.len() {
        if text[i..].starts_with(b"  ") {
            return &text[..i];
        }
    }
    text
}

/// Returns a line without the explanation that `lbserver` prints after a message.
fn without_explanation(line: &[u8]) -> &[u8]
    ensures { result.now ≡ without_explanation line.now }
{
    if cut_piece(line).0 == b"message".as_slice() {
        before_two_spaces(line)
    } else {
        line
    }
}

/// Returns the message in a line, if it has a whole one.
fn message_in_line(line: &[u8]) -> Option<Msg>
    ensures { result ≡ message_in_line line.now }
{
    message_in_text(without_explanation(line))
}

/// Appends the message in a line, if it has a whole one.
#[tactic(auto, unfolding(crate::specs::HexText::hex_line_of))]
fn push_line(line: &[u8], text: &mut Vec<u8>) -> Result<(), AllocError>
    ensures { OnOk result (text.new.items ≡ text.old.items ++ hex_line_of line.now) }
{
    match message_in_line(line) {
        Some(message) => push_hex_line(message.bytes(), text),
        None => Ok(()),
    }
}

/// Returns the hex text of a log: each whole message in its lines, in order, one a line.
///
/// # Errors
///
/// Out of memory.
#[tactic(auto, using(crate::proofs::LogLines::log_lines))]
pub fn hex_text(alloc: Global, log: &[u8]) -> Result<Vec<u8>, AllocError>
    ensures text { IfOk result (λ text. text.items ≡ hex_text log.now) }
{
    let mut text = Vec::new(alloc);
    let mut rest = log;
    while let Some((line, behind)) = split_at_line_feed(rest) {
        push_line(body_and_end(line).0, &mut text)?;
        rest = behind;
    }
    push_line(rest, &mut text)?;
    Ok(text)
}
