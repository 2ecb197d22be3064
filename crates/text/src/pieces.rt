//! Searching a text for spaces, blanks and line feeds.
ghost use Rattle.std.specs.Prelude.{◌≡◌, ◌+◌, ◌<◌, ◌≤◌, ◌==◌, ◌∷◌, ◌++◌, IfSome, IsTrue, None, length, position};
ghost use Rattle.std.specs.List.{before_first, after_first};
ghost use Rattle.text.specs.Lines.{is_open};
ghost use Rattle.text.specs.Words.{is_blank, words_of, with_piece};

use memchr::memchr;

/// Returns the index of the first line feed, or `None` if there is none.
#[inline]
#[tactic(auto, using(crate::proofs::Cuts::first_is_position))]
pub fn line_feed_at(text: &[u8]) -> Option<usize>
    ensures { result ≡ position (λ b. b == 10) text.now }
{
    memchr(b'\n', text)
}

/// Splits a text at its first line feed: the bytes before it, and the bytes after it.
#[inline]
#[tactic(auto, using(crate::proofs::LineFeeds::cuts))]
pub fn split_at_line_feed(text: &[u8]) -> Option<(&[u8], &[u8])>
    ensures none { result ≡ None → IsTrue (is_open text.now) }
    ensures line { IfSome result (λ cut. IsTrue (is_open cut.0.now)) }
    ensures parts { IfSome result (λ cut. text.now ≡ cut.0.now ++ 10 ∷ cut.1.now) }
    ensures shorter { IfSome result (λ cut. length cut.1.now < length text.now) }
{
    let at = line_feed_at(text)?;
    Some((&text[..at], &text[at + 1..]))
}

/// Returns the index of the first space, or `None` if there is none.
#[inline]
pub fn space_at(text: &[u8]) -> Option<usize>
    ensures { result ≡ position (λ b. b == 32) text.now }
{
    text.iter().position(|byte| *byte == b' ')
}

/// Splits a text at its first blank, a space or a tab: the bytes before it and the bytes after it.
/// A text without a blank is returned whole, with an empty rest.
#[inline]
#[tactic(auto, using(crate::proofs::Cuts::cuts))]
pub fn cut_piece(text: &[u8]) -> (&[u8], &[u8])
    ensures first { result.0.now ≡ before_first is_blank text.now }
    ensures rest { result.1.now ≡ after_first is_blank text.now }
    ensures words { words_of text.now ≡ with_piece result.0.now (words_of result.1.now) }
    ensures within { length result.0.now + length result.1.now ≤ length text.now }
    ensures shorter { 0 < length text.now → length result.1.now < length text.now }
{
    match blank_at(text) {
        None => (text, &[]),
        Some(at) => (&text[..at], &text[at + 1..]),
    }
}

#[inline]
fn blank_at(text: &[u8]) -> Option<usize>
    ensures { result ≡ position is_blank text.now }
{
    text.iter().position(|byte| is_blank(*byte))
}

/// Whether the byte is a space or a tab.
#[inline]
pub fn is_blank(byte: u8) -> bool
    ensures { result ≡ is_blank byte }
{
    byte == b' ' || byte == b'\t'
}
