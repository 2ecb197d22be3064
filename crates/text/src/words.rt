//! The words of a line.
ghost use Rattle.std.specs.Prelude.{◌≡◌, ◌<◌, ◌≤◌, ◌+◌, ◌∷◌, ◌++◌, [], ℕ, List, length, drop, true, false, Some, IfSome, MatchOption};
ghost use Rattle.std.specs.Iterator.{YieldsFirstRef, item_count};
ghost use Rattle.std.specs.List.{list_all};
ghost use Rattle.text.specs.Decimal.{decimal_of};
ghost use Rattle.text.specs.Hex.{pair_of};
ghost use Rattle.text.specs.Words.{begins_blank, ends_word, first_value, is_blank, is_empty, is_first, is_one_word, words_of};

use crate::decimal::read_decimal;
use crate::hex::{read_hex_digits, read_hex_pair};
use crate::pieces::{cut_piece, is_blank};

/// Why the next word has no value.
#[derive(Clone, Copy, Debug, PartialEq, Eq)]
pub enum WordError {
    /// There is no further word.
    Missing,
    /// The word does not write a value.
    Invalid,
}

#[inline]
fn are_blank(bytes: &[u8]) -> bool
    ensures { result ≡ list_all is_blank bytes.now }
{
    bytes.iter().all(|byte| is_blank(*byte))
}

#[inline]
fn begins_blank(text: &[u8]) -> bool
    ensures { result ≡ begins_blank text.now }
{
    match text {
        [first, ..] => is_blank(*first),
        [] => false,
    }
}

/// Returns the text without the blanks before its first word.
#[inline]
#[tactic(auto, using(crate::proofs::FirstWord::blank_steps))]
fn from_word(text: &[u8]) -> &[u8]
    ensures words { words_of result.now ≡ words_of text.now }
    ensures first { begins_blank result.now ≡ false }
{
    let mut rest = text;
    while begins_blank(rest) {
        rest = &rest[1..];
    }
    rest
}

/// Returns the text after the blank that ends a word, and an empty text after the last word. `None`
/// if the word has not ended.
#[inline]
#[tactic(auto, using(crate::proofs::FirstWord::word_ends))]
fn behind_blank(text: &[u8]) -> Option<&[u8]>
    ensures { MatchOption result (ends_word text.now ≡ false)
        (λ rest. (word : List ℕ) → is_one_word word ≡ true
        → words_of (word ++ text.now) ≡ word ∷ words_of rest.now) }
{
    match text {
        [] => Some(text),
        [blank, rest @ ..] if is_blank(*blank) => Some(rest),
        _ => None,
    }
}

/// Returns the text after the word `name` and its blank, if the text begins with that word.
#[inline]
fn behind_word<'a>(text: &'a [u8], name: &str) -> Option<&'a [u8]>
    requires name { is_one_word name.now ≡ true }
    requires first { begins_blank text.now ≡ false }
    ensures { MatchOption result (is_first name.now (words_of text.now) ≡ false)
        (λ rest. words_of text.now ≡ name.now ∷ words_of rest.now) }
{
    behind_blank(text.strip_prefix(name.as_bytes())?)
}

/// Returns the byte of the pair of digits at the beginning of the text, and the text after it and
/// its blank.
#[inline]
fn cut_byte(text: &[u8]) -> Option<(u8, &[u8])>
    ensures { IfSome result
        (λ cut. (word : List ℕ) × (words_of text.now ≡ word ∷ words_of cut.1.now)
        × (pair_of word ≡ Some cut.0)) }
{
    let [high, low, behind @ ..] = text else {
        return None;
    };
    let byte = read_hex_digits(*high, *low)?;
    Some((byte, behind_blank(behind)?))
}

/// Returns the number of the single digit at the beginning of the text, and the text after it and
/// its blank.
#[inline]
fn cut_digit(text: &[u8]) -> Option<(u32, &[u8])>
    ensures { IfSome result
        (λ cut. (word : List ℕ) × (words_of text.now ≡ word ∷ words_of cut.1.now)
        × (decimal_of word ≡ Some cut.0)) }
{
    let [digit, behind @ ..] = text else {
        return None;
    };
    if !digit.is_ascii_digit() {
        return None;
    }
    Some((u32::from(*digit - b'0'), behind_blank(behind)?))
}

/// The remaining words of a text, separated by spaces and tabs.
#[derive(Drop)]
pub struct Words<'a>(pub &'a [u8]);

impl<'a> Words<'a> {
    /// Whether no word remains.
    #[inline]
    #[tactic(auto, using(crate::proofs::Cuts::only_blanks))]
    pub fn is_empty(&self) -> bool
        ensures { result ≡ is_empty (words_of self.now.0.now) }
    {
        are_blank(self.0)
    }

    /// Takes the next word if it is `name`, which is one word.
    #[inline]
    pub fn take_word(&mut self, name: &str) -> bool
        requires { is_one_word name.now ≡ true }
        ensures taken { result ≡ true
            → words_of self.old.0.now ≡ name.now ∷ words_of self.new.0.now }
        ensures left { result ≡ false → words_of self.new.0.now ≡ words_of self.old.0.now }
        ensures other { result ≡ false → is_first name.now (words_of self.old.0.now) ≡ false }
    {
        match behind_word(from_word(self.0), name) {
            Some(rest) => {
                self.0 = rest;
                true
            }
            None => false,
        }
    }

    /// Takes the next word.
    #[inline]
    #[tactic(auto, using(crate::proofs::Cuts::no_words))]
    pub fn next_word(&mut self) -> Option<&'a [u8]>
        ensures word { MatchOption result (words_of self.old.0.now ≡ [])
            (λ word. words_of self.old.0.now ≡ word.now ∷ words_of self.new.0.now) }
        ensures rest { words_of self.new.0.now ≡ drop 1 (words_of self.old.0.now) }
        ensures some { IfSome result (λ word. 0 < length word.now) }
        ensures within { IfSome result
            (λ word. length word.now + length self.new.0.now ≤ length self.old.0.now) }
    {
        while !self.0.is_empty() {
            let (piece, rest) = cut_piece(self.0);
            self.0 = rest;
            if !piece.is_empty() {
                return Some(piece);
            }
        }
        None
    }

    /// Takes the next word as a number of one to seven decimal digits.
    #[inline]
    pub fn next_number(&mut self) -> Result<u32, WordError>
        ensures number { result ≡ first_value decimal_of (words_of self.old.0.now) }
        ensures rest { words_of self.new.0.now ≡ drop 1 (words_of self.old.0.now) }
    {
        // Nearly all numbers are one digit and one space: these need no search for their end.
        if let Some((number, rest)) = cut_digit(self.0) {
            self.0 = rest;
            return Ok(number);
        }
        let word = self.next_word().ok_or(WordError::Missing)?;
        read_decimal(word).ok_or(WordError::Invalid)
    }

    /// Takes the next word as a byte in two hexadecimal digits.
    #[inline]
    pub fn next_byte(&mut self) -> Result<u8, WordError>
        ensures byte { result ≡ first_value pair_of (words_of self.old.0.now) }
        ensures rest { words_of self.new.0.now ≡ drop 1 (words_of self.old.0.now) }
    {
        // Nearly all words are a pair and one space: these need no search for their end.
        if let Some((byte, rest)) = cut_byte(self.0) {
            self.0 = rest;
            return Ok(byte);
        }
        let word = self.next_word().ok_or(WordError::Missing)?;
        read_hex_pair(word).ok_or(WordError::Invalid)
    }
}

impl<'a> Iterator for Words<'a> {
    type Item = &'a [u8];

    ghost next_gives = { YieldsFirstRef (λ s. words_of s.0.now) };

    ghost remaining = { item_count (λ s. words_of s.0.now) };

    #[inline]
    fn next(&mut self) -> Option<&'a [u8]> {
        self.next_word()
    }
}
