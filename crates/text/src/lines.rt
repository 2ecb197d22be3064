//! The lines of a text.
ghost use Rattle.std.specs.Prelude.{◌≡◌, ◌<◌, ◌==◌, ◌∷◌, length};
ghost use Rattle.std.specs.Iterator.{YieldsFirstRef, item_count};
ghost use Rattle.std.specs.Str.Lines.{lines, strip_carriage_return};

use crate::pieces::line_feed_at;

#[inline]
fn without_carriage_return(line: &[u8]) -> &[u8]
    ensures { result.now ≡ strip_carriage_return line.now }
{
    line.strip_suffix(b"\r").unwrap_or(line)
}

/// Returns the first line of a text that is not empty, and the text after it. A line ends with a
/// line feed, which the last may lack; one carriage return before it is dropped.
#[inline]
#[tactic(auto, using(crate::proofs::Cuts::line_cuts))]
pub fn cut_line(text: &[u8]) -> (&[u8], &[u8])
    requires { 0 < length text.now }
    ensures lines { lines text.now ≡ result.0.now ∷ lines result.1.now }
    ensures shorter { length result.1.now < length text.now }
{
    match line_feed_at(text) {
        None => (text, &[]),
        Some(at) => (without_carriage_return(&text[..at]), &text[at + 1..]),
    }
}

/// The remaining lines of a text. Each ends with a line feed, which the last may lack.
#[derive(Drop)]
pub struct Lines<'a>(pub &'a [u8]);

impl<'a> Iterator for Lines<'a> {
    type Item = &'a [u8];

    ghost next_gives = { YieldsFirstRef (λ s. lines s.0.now) };

    ghost remaining = { item_count (λ s. lines s.0.now) };

    #[inline]
    fn next(&mut self) -> Option<&'a [u8]> {
        if self.0.is_empty() {
            return None;
        }
        let (line, rest) = cut_line(self.0);
        self.0 = rest;
        Some(line)
    }
}
