//! The words of a line, each up to the next space, and the values of single words.
ghost use Rattle.std.specs.Prelude.{◌≡◌, ◌≤◌, ◌==◌, Some, None, if◌then◌else◌, position, length};
ghost use Rattle.std.specs.Str.{bytes_eq};
ghost use Rattle.std.specs.List.{list_all};
ghost use Rattle.dcc_packet.specs.Module.{is_module};
ghost use Rattle.trace.specs.Node.{address_of, rest_after, direction_of, is_bit, is_name, is_plain, long_of, number_of, short_of, steps_of, switches_of, word_of};

use crate::reported_state::{Name, Switches};
use arrayvec::ArrayVec;
use dcc_packet::{Address, Module, Steps};
use text::{are_name_bytes, push_bytes, read_decimal, space_at};

/// The first word.
#[tactic(auto, using(crate::proofs::FirstWords::word_cuts))]
pub(crate) fn first_word(text: &[u8]) -> &[u8]
    ensures { result.now ≡ word_of text.now }
{
    match space_at(text) {
        Some(at) => &text[..at],
        None => text,
    }
}

/// Returns the text after the first word and its space.
#[tactic(auto, using(crate::proofs::FirstWords::word_cuts))]
pub(crate) fn rest_after(text: &[u8]) -> &[u8]
    ensures { result.now ≡ rest_after text.now }
{
    match space_at(text) {
        Some(at) => &text[at + 1..],
        None => &[],
    }
}

/// Whether a word is `text`.
pub(crate) fn is_word(word: &[u8], text: &str) -> bool
    ensures { result ≡ bytes_eq word.now text.now }
{
    word == text.as_bytes()
}

fn is_plain(word: &[u8]) -> bool
    ensures { result ≡ is_plain word.now }
{
    match word {
        [] => false,
        [_] => true,
        [first, ..] => *first != b'0',
    }
}

/// Returns the number of a word of one to seven decimal digits without leading zeros.
pub(crate) fn number(word: &[u8]) -> Option<u32>
    ensures { result ≡ number_of word.now }
{
    if is_plain(word) {
        read_decimal(word)
    } else {
        None
    }
}

fn is_bit(byte: u8) -> bool
    ensures { result ≡ is_bit byte }
{
    byte == b'0' || byte == b'1'
}

fn are_bits(text: &[u8]) -> bool
    ensures { result ≡ list_all is_bit text.now }
{
    text.iter().all(|byte| is_bit(*byte))
}

/// Returns the switches of a word of `count` digits, at most 13.
pub(crate) fn switches(count: usize, text: &[u8]) -> Option<Switches>
    requires { count ≤ 13 }
    ensures { result ≡ switches_of count text.now }
{
    if text.len() != count || !are_bits(text) {
        return None;
    }
    let mut digits = ArrayVec::new();
    push_bytes(&mut digits, text);
    Some(Switches { digits })
}

/// Returns the name of a word.
pub(crate) fn name(word: &[u8]) -> Option<Name>
    ensures { result ≡ (if is_name word.now then Some word.now else None) }
{
    if word.is_empty() || word.len() > 16 || !are_name_bytes(word) {
        return None;
    }
    let mut bytes = ArrayVec::new();
    push_bytes(&mut bytes, word);
    Some(Name { bytes })
}

fn short(number: u32) -> Option<Address>
    ensures { result ≡ short_of (Some number) }
{
    match number {
        1..=127 => Some(Address::Short(number as u8)),
        _ => None,
    }
}

fn long(number: u32) -> Option<Address>
    ensures { result ≡ long_of (Some number) }
{
    match number {
        0..=10239 => Some(Address::Long(number as u16)),
        _ => None,
    }
}

/// Returns the address of two words, `short A` or `long A`.
pub(crate) fn address(kind: &[u8], word: &[u8]) -> Option<Address>
    ensures { result ≡ address_of kind.now word.now }
{
    if is_word(kind, "short") {
        return short(number(word)?);
    }
    if is_word(kind, "long") {
        return long(number(word)?);
    }
    None
}

/// The module of this number.
pub(crate) fn module(number: u32) -> Option<Module>
    ensures { result ≡ (if is_module number then Some number else None) }
{
    match number {
        1..=510 => Module::new(number as u16),
        _ => None,
    }
}

/// Returns the steps of this printed number.
pub(crate) fn steps(word: &[u8]) -> Option<Steps>
    ensures { result ≡ steps_of word.now }
{
    if is_word(word, "14") {
        Some(Steps::S14)
    } else if is_word(word, "28") {
        Some(Steps::S28)
    } else if is_word(word, "128") {
        Some(Steps::S128)
    } else {
        None
    }
}

/// Whether a word means forward and not reverse.
pub(crate) fn direction(word: &[u8]) -> Option<bool>
    ensures { result ≡ direction_of word.now }
{
    if is_word(word, "forward") {
        Some(true)
    } else if is_word(word, "reverse") {
        Some(false)
    } else {
        None
    }
}
