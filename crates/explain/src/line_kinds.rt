//! The subject of a line, and its explanation.
ghost use Rattle.std.specs.Prelude.{◌≡◌, ◌≤◌, length, Option, Some, None, MatchOption};
ghost use Rattle.text.specs.Words.{words_of};
ghost use Rattle.describe.specs.Messages.{message_words};
ghost use Rattle.loconet_tcp.specs.Requests.{leading_bytes};
ghost use Rattle.explain.specs.LineKinds.{message_in, monitored_in, programming_in, said_by, turn_in, words_about};
ghost use Rattle.explain.specs.Notes.{captured_in, is_named};

use crate::brackets::without_brackets;
use crate::fault_lines::{fault_in, names_program};
use describe::{Words, describe_message, describe_packet, service_words};
use loconet_tcp::{Bytes, bytes_of, leading_bytes};
use text::{cut_piece, push_bytes};

/// Explains words that are a message and nothing else.
#[tactic(auto, unfolding(crate::specs::LineKinds::message_in))]
fn describe_message_in(text: &[u8], words: &mut Words)
    requires { length text.now ≤ 400 }
    ensures { words.new.items ≡ message_in text.now }
{
    match bytes_of(text) {
        Some(bytes) => describe_some(&bytes, words),
        None => words.clear(),
    }
}

/// Explains the bytes of a message, if there are any.
fn describe_some(bytes: &Bytes, words: &mut Words)
    ensures { words.new.items ≡ said_by message_words (Some bytes.now.items) }
{
    if bytes.is_empty() {
        words.clear();
    } else {
        describe_message(words, bytes.as_slice());
    }
}

/// Explains what a turn sent: `off`, or the words of a packet and nothing else.
#[tactic(auto, unfolding(crate::specs::LineKinds::turn_in))]
fn describe_turn(text: &[u8], words: &mut Words)
    requires { length text.now ≤ 400 }
    ensures { words.new.items ≡ turn_in text.now }
{
    if text == b"off".as_slice() {
        return write_text(b"no power, nothing is sent", words);
    }
    match bytes_of(text) {
        Some(bytes) if !bytes.is_empty() => describe_packet(words, bytes.as_slice()),
        _ => words.clear(),
    }
}

/// Explains the words of a packet of the programming track and nothing else.
#[tactic(auto, unfolding(crate::specs::LineKinds::programming_in))]
fn describe_programming(text: &[u8], words: &mut Words)
    requires { length text.now ≤ 400 }
    ensures { words.new.items ≡ programming_in text.now }
{
    match bytes_of(text) {
        Some(bytes) if !bytes.is_empty() => *words = service_words(bytes.as_slice()),
        _ => words.clear(),
    }
}

/// Sets the explanation to this text.
fn write_text(text: &[u8], words: &mut Words)
    requires { length text.now ≤ 400 }
    ensures { words.new.items ≡ text.now }
{
    words.clear();
    push_bytes(words, text);
}

/// Explains a message followed by words that describe it.
#[tactic(auto, unfolding(crate::specs::LineKinds::monitored_in))]
fn describe_monitored(text: &[u8], words: &mut Words)
    requires { length text.now ≤ 400 }
    ensures { words.new.items ≡ monitored_in text.now }
{
    describe_some(&leading_bytes(text), words);
}

/// Explains a line of at most 400 characters, by its first word. The explanation is empty if the
/// line is about neither a message, a packet nor a fault. It replaces the contents of `words`.
pub(crate) fn describe_line(line: &[u8], words: &mut Words)
    requires { length line.now ≤ 400 }
    ensures { words.new.items ≡ words_about line.now }
{
    let (first, rest_after) = cut_piece(line);
    if first == b"reply".as_slice() {
        return describe_message_in(cut_piece(rest_after).1, words);
    }
    if first == b"track".as_slice() {
        return describe_turn(cut_piece(rest_after).1, words);
    }
    if first == b"programming".as_slice() {
        return describe_programming(cut_piece(rest_after).1, words);
    }
    if first == b"msg".as_slice() {
        return describe_monitored(rest_after, words);
    }
    if first == b"RECEIVE".as_slice() || first == b"SEND".as_slice() {
        return describe_message_in(rest_after, words);
    }
    if names_program(first) {
        return write_text(fault_in(rest_after).as_bytes(), words);
    }
    describe_message_in(without_brackets(line), words);
}

/// Whether the first word says what the line is about.
fn is_named(line: &[u8]) -> bool
    ensures { result ≡ is_named line.now }
{
    let first = cut_piece(line).0;
    first == b"reply".as_slice()
        || first == b"track".as_slice()
        || first == b"programming".as_slice()
        || first == b"msg".as_slice()
        || first == b"RECEIVE".as_slice()
        || first == b"SEND".as_slice()
        || names_program(first)
}

/// Returns the bytes of a line that is bytes alone, or has them between brackets; else none.
pub(crate) fn captured_in(line: &[u8]) -> Bytes
    requires { length line.now ≤ 400 }
    ensures { result.items ≡ captured_in line.now }
{
    if is_named(line) {
        return Bytes::new();
    }
    match bytes_of(without_brackets(line)) {
        Some(bytes) => bytes,
        None => Bytes::new(),
    }
}
