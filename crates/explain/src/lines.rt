//! Lines, and the output for them.
ghost use Rattle.std.specs.Prelude.{◌≡◌, ◌<◌, ◌∷◌, ◌++◌, [], IsTrue, IfSome, OnOk, Some, None, length};
ghost use Rattle.explain.specs.Explained.{shown};
ghost use Rattle.explain.specs.Lines.{body_of, end_of};
ghost use Rattle.text.specs.Lines.{is_open};
ghost use Rattle.explain.specs.Notes.{note_of};

use crate::line_kinds::{captured_in, describe_line};
use crate::parts::{has_several, push_parts, push_words};
use describe::Words;
use loconet_tcp::LONGEST_LINE;
use std::alloc::AllocError;

/// Splits a line that a line feed follows into its text and its end.
#[tactic(auto, using(crate::proofs::Ends::ends))]
pub(crate) fn body_and_end(line: &[u8]) -> (&[u8], &[u8])
    requires { IsTrue (is_open line.now) }
    ensures body { result.0.now ≡ body_of (line.now ++ 10 ∷ []) }
    ensures end { result.1.now ≡ end_of (line.now ++ 10 ∷ []) }
{
    match line.split_last() {
        Some((b'\r', body)) => (body, b"\r\n"),
        _ => (line, b"\n"),
    }
}

/// Appends two spaces and the explanation of a line, if it has one, or that of each message in it;
/// `words` is a buffer for it.
fn push_note(line: &[u8], words: &mut Words, text: &mut Vec<u8>) -> Result<(), AllocError>
    ensures { OnOk result (text.new.items ≡ text.old.items ++ note_of line.now) }
{
    if line.len() > LONGEST_LINE {
        return Ok(());
    }
    let captured = captured_in(line);
    if has_several(captured.as_slice()) {
        return push_parts(captured.as_slice(), words, text);
    }
    describe_line(line, words);
    push_words(words, text)
}

/// Appends the text of a line, its explanation, and its end.
pub(crate) fn push_line(
    body: &[u8],
    end: &[u8],
    words: &mut Words,
    text: &mut Vec<u8>,
) -> Result<(), AllocError>
    ensures { OnOk result
        (text.new.items ≡ text.old.items ++ (body.now ++ note_of body.now ++ end.now)) }
{
    text.extend_from_slice(body)?;
    push_note(body, words, text)?;
    text.extend_from_slice(end)
}

/// Appends a line given without its line feed, with its explanation before its end.
pub(crate) fn push_ended(
    line: &[u8],
    words: &mut Words,
    text: &mut Vec<u8>,
) -> Result<(), AllocError>
    requires { IsTrue (is_open line.now) }
    ensures { OnOk result (text.new.items ≡ text.old.items ++ shown (line.now ++ 10 ∷ [])) }
{
    let (body, end) = body_and_end(line);
    push_line(body, end, words, text)
}
