//! Lines, and messages of one line each.
ghost use Rattle.std.specs.Prelude.{◌≡◌, ◌==◌, ◌<◌, ◌≤◌, ◌∷◌, ◌++◌, [], ℕ, List, drop, length, min, take};
ghost use Rattle.arrayvec.specs.ArrayVec.{array_vec_len};
ghost use Rattle.web.specs.Messages.{held_after, without_return};

use arrayvec::ArrayVec;
use std::marker::Model;
use text::push_bytes;

/// The most bytes of a line in either direction.
pub const LONGEST_LINE: usize = 512;

/// A received message, as a line of which a part may already have been read.
#[derive(Drop)]
pub struct ReceivedLine {
    line: ArrayVec<u8, 513>,
    at: usize,
}

impl Model for ReceivedLine {
    ghost Value = { List ℕ };

    ghost view = { λ h. drop h.at h.line.items };

    ghost invariant = { λ h. (h.at ≤ array_vec_len h.line) × (array_vec_len h.line ≤ 513) };
}

impl ReceivedLine {
    /// Creates a line with nothing to read.
    pub fn new() -> Self
        ensures { result ≡ [] }
    {
        ReceivedLine {
            line: ArrayVec::new(),
            at: 0,
        }
    }

    /// Whether all of the line has been read.
    pub fn is_empty(&self) -> bool
        ensures { result ≡ (length self.now == 0) }
    {
        self.at == self.line.len()
    }

    /// Takes the text of a message, at most [`LONGEST_LINE`] bytes, and appends a line feed.
    pub fn receive(&mut self, message: &[u8])
        requires { length message.now ≤ 512 }
        ensures { self.new ≡ message.now ++ 10 ∷ [] }
    {
        self.line.clear();
        self.at = 0;
        push_bytes(&mut self.line, message);
        self.line.push(b'\n');
    }

    /// Returns the bytes not yet read.
    #[tactic(auto, using(crate::proofs::Pieces::rests))]
    fn rest(&self) -> &[u8]
        ensures bytes { result.now ≡ self.now }
        ensures few { length result.now ≤ 513 }
    {
        &self.line.as_slice()[self.at..]
    }

    /// Copies as many of the remaining bytes as fit into `room`, and returns the count.
    pub fn copy_into(&mut self, room: &mut [u8]) -> usize
        ensures count { result ≡ min (length self.old) (length room.new) }
        ensures given { self.old ≡ take result room.new ++ self.new }
        ensures len { length room.new ≡ length room.old }
    {
        let rest = self.rest();
        let count = rest.len().min(room.len());
        room[..count].copy_from_slice(&rest[..count]);
        self.at += count;
        count
    }
}

/// The beginning of an unfinished line, at most [`LONGEST_LINE`] bytes of it.
#[derive(Drop)]
pub struct UnfinishedLine {
    line: ArrayVec<u8, LONGEST_LINE>,
}

impl Model for UnfinishedLine {
    ghost Value = { List ℕ };

    ghost view = { λ u. u.line.items };

    ghost invariant = { λ u. array_vec_len u.line ≤ 512 };
}

impl UnfinishedLine {
    /// Creates an empty line.
    pub fn new() -> Self
        ensures { result ≡ [] }
    {
        UnfinishedLine {
            line: ArrayVec::new(),
        }
    }

    /// Whether no line has begun.
    pub fn is_empty(&self) -> bool
        ensures { result ≡ (length self.now == 0) }
    {
        self.line.is_empty()
    }

    /// Takes the next byte of the line. Of a line that is too long the first [`LONGEST_LINE`] bytes
    /// are kept.
    pub fn push(&mut self, byte: u8)
        ensures { self.new ≡ held_after self.old byte }
    {
        if !self.line.is_full() {
            self.line.push(byte);
        }
    }

    /// Returns the line that a line feed would end: the bytes held, without a carriage return at
    /// their end.
    #[tactic(auto, using(crate::proofs::Pieces::ends))]
    pub fn line(&self) -> &[u8]
        ensures { result.now ≡ without_return self.now }
    {
        match self.line.as_slice().split_last() {
            Some((b'\r', line)) => line,
            _ => self.line.as_slice(),
        }
    }

    /// Clears the line.
    pub fn end(&mut self)
        ensures { self.new ≡ [] }
    {
        self.line.clear();
    }
}
