//! The bytes between brackets, as in the monitor of JMRI.
ghost use Rattle.std.specs.Prelude.{◌≡◌, ◌≤◌, IfSome, length, option_map, position};
ghost use Rattle.std.specs.List.{before_first};
ghost use Rattle.explain.specs.Brackets.{bracketed_in, is_closing, without_brackets};

use text::cut_piece;

/// Returns the index of the first `]`, or `None` if there is none.
fn closing_at(text: &[u8]) -> Option<usize>
    ensures { result ≡ position is_closing text.now }
{
    text.iter().position(|byte| *byte == b']')
}

/// Returns the text before the first `]`, and all of it if there is none.
#[tactic(auto, using(crate::proofs::Closing::closings))]
fn before_closing(text: &[u8]) -> &[u8]
    ensures text { result.now ≡ before_first is_closing text.now }
    ensures within { length result.now ≤ length text.now }
{
    match closing_at(text) {
        None => text,
        Some(at) => &text[..at],
    }
}

/// Returns the text between a `[` at the beginning and the next `]`.
fn bracketed_in(text: &[u8]) -> Option<&[u8]>
    ensures text { option_map (λ inner. inner.now) result ≡ bracketed_in text.now }
    ensures within { IfSome result (λ inner. length inner.now ≤ length text.now) }
{
    match text {
        [b'[', inner @ ..] => Some(before_closing(inner)),
        _ => None,
    }
}

/// Returns what is between brackets, if the first or the second word begins with one, else the
/// line.
#[tactic(auto, unfolding(crate::specs::Brackets::without_brackets))]
pub(crate) fn without_brackets(line: &[u8]) -> &[u8]
    ensures text { result.now ≡ without_brackets line.now }
    ensures within { length result.now ≤ length line.now }
{
    if let Some(inner) = bracketed_in(line) {
        return inner;
    }
    match bracketed_in(cut_piece(line).1) {
        Some(inner) => inner,
        None => line,
    }
}
