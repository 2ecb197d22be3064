//! Explaining a text, piece by piece.
ghost use Rattle.std.specs.Prelude.{ℕ, ◌≡◌, ◌∷◌, ◌++◌, [], List, IsTrue, OnOk, false};
ghost use Rattle.text.specs.Lines.{is_open};
ghost use Rattle.explain.specs.Unfinished.{to_write};

use crate::lines::{push_ended, push_line};
use arrayvec::ArrayVec;
use describe::Words;
use loconet_tcp::LONGEST_KEPT;
use std::alloc::AllocError;
use text::split_at_line_feed;

/// Explains a text, piece by piece. It holds the beginning of the unfinished line, and nothing of a
/// line that is too long.
#[derive(Drop)]
pub struct Explainer {
    line: ArrayVec<u8, LONGEST_KEPT>,
    /// The beginning of the unfinished line was too long, and is already written.
    is_long: bool,
    /// The buffer of an explanation, so that none is made for each line.
    words: Words,
    // A line is written when its end is read.
    ghost open: { IsTrue (is_open line.items) },
}

impl Explainer {
    /// Creates an explainer that has received no byte.
    pub fn new() -> Self
        ensures held { result.line.items ≡ [] }
        ensures is_long { result.is_long ≡ false }
    {
        Explainer {
            line: ArrayVec::new(),
            is_long: false,
            words: Words::new(),
        }
    }

    /// Takes a piece of the text, and appends the output that is complete: each line that ends in
    /// it, explained.
    ///
    /// # Errors
    ///
    /// Out of memory. Then only part of the output was appended, and the text cannot be continued.
    pub fn push(&mut self, bytes: &[u8], text: &mut Vec<u8>) -> Result<(), AllocError>
        // Whatever text follows, no output is lost and none is invented.
        ensures further { OnOk result
            ((more : List ℕ)
            → text.old.items ++ to_write self.old.is_long self.old.line.items (bytes.now ++ more)
            ≡ text.new.items ++ to_write self.new.is_long self.new.line.items more) }
        ensures open { IsTrue (is_open self.new.line.items) }
    {
        let mut rest = bytes;
        while let Some((piece, rest_after)) = split_at_line_feed(rest) {
            self.push_line_piece(piece, text)?;
            rest = rest_after;
        }
        self.keep(rest, text)
    }

    /// Ends the text, and appends the rest of the output.
    ///
    /// # Errors
    ///
    /// Out of memory.
    #[tactic(auto, using(crate::proofs::Held::finishes))]
    pub fn finish(&mut self, text: &mut Vec<u8>) -> Result<(), AllocError>
        ensures { OnOk result
            (text.new.items ≡ text.old.items ++ to_write self.old.is_long self.old.line.items []) }
    {
        if self.is_long {
            return Ok(());
        }
        push_line(self.line.as_slice(), b"", &mut self.words, text)
    }

    /// Takes bytes and the line feed after them.
    #[tactic(auto, using(crate::proofs::Held::pushes_line))]
    fn push_line_piece(&mut self, piece: &[u8], text: &mut Vec<u8>) -> Result<(), AllocError>
        requires { IsTrue (is_open piece.now) }
        ensures { OnOk result
            ((more : List ℕ)
            → text.old.items
            ++ to_write self.old.is_long self.old.line.items (piece.now ++ 10 ∷ more)
            ≡ text.new.items ++ to_write self.new.is_long self.new.line.items more) }
    {
        if !self.is_long && self.line.is_empty() {
            return push_ended(piece, &mut self.words, text);
        }
        self.keep(piece, text)?;
        self.end_line(text)
    }

    /// Takes bytes that end no line.
    #[tactic(auto, using(crate::proofs::Held::holds))]
    fn keep(&mut self, piece: &[u8], text: &mut Vec<u8>) -> Result<(), AllocError>
        requires { IsTrue (is_open piece.now) }
        ensures { OnOk result
            ((more : List ℕ)
            → text.old.items ++ to_write self.old.is_long self.old.line.items (piece.now ++ more)
            ≡ text.new.items ++ to_write self.new.is_long self.new.line.items more) }
    {
        if self.is_long {
            return text.extend_from_slice(piece);
        }
        if self.line.try_extend_from_slice(piece).is_ok() {
            return Ok(());
        }
        self.is_long = true;
        text.extend_from_slice(self.line.as_slice())?;
        text.extend_from_slice(piece)
    }

    /// Takes a line feed.
    #[tactic(auto, using(crate::proofs::Held::ends_line))]
    fn end_line(&mut self, text: &mut Vec<u8>) -> Result<(), AllocError>
        ensures { OnOk result
            ((more : List ℕ)
            → text.old.items ++ to_write self.old.is_long self.old.line.items (10 ∷ more)
            ≡ text.new.items ++ to_write self.new.is_long self.new.line.items more) }
    {
        if self.is_long {
            text.push(b'\n')?;
        } else {
            push_ended(self.line.as_slice(), &mut self.words, text)?;
        }
        self.is_long = false;
        self.line.clear();
        Ok(())
    }
}
