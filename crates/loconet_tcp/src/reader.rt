//! Reading a client's text byte by byte.
ghost use Rattle.std.specs.Prelude.{◌≡◌, ℕ, ◌≤◌, List, [], ◌∷◌, ◌++◌, IsTrue, length};
ghost use Rattle.std.specs.Option.{option_to_list};
ghost use Rattle.loconet_tcp.specs.Text.{is_end, is_open};
ghost use Rattle.loconet_tcp.specs.Reading.{requests_of, request_of_byte, kept_after};

use crate::parsing::{LONGEST_KEPT, parse_line};
use crate::request::Request;
use arrayvec::ArrayVec;
use std::marker::Model;

/// Reads a client's text byte by byte. It holds the beginning of the unfinished line, at most
/// [`LONGEST_KEPT`] bytes.
#[derive(Drop)]
pub struct RequestReader {
    line: ArrayVec<u8, LONGEST_KEPT>,
}

impl Model for RequestReader {
    ghost Value = { List ℕ };

    ghost view = { λ r. r.line.items };

    ghost invariant = { λ r. IsTrue (is_open r.line.items) };
}

impl RequestReader {
    /// Creates a reader that has received no byte.
    pub fn new() -> Self
        ensures { result ≡ [] }
    {
        RequestReader {
            line: ArrayVec::new(),
        }
    }

    /// Takes the next byte. Returns the request of the line that it ends, if the line makes one.
    pub fn push(&mut self, byte: u8) -> Option<Request>
        ensures given { result ≡ request_of_byte self.old byte }
        ensures kept { self.new ≡ kept_after self.old byte }
        // The bytes held make no request yet.
        ensures open_ended { requests_of self.new ≡ [] }
        // Whatever text follows, no request is lost and none is invented.
        ensures further { (z : List ℕ) → requests_of (self.old ++ byte ∷ z)
            ≡ option_to_list result ++ requests_of (self.new ++ z) }
    {
        self.take(byte)
    }

    /// Takes one byte.
    fn take(&mut self, byte: u8) -> Option<Request>
        ensures given { result ≡ request_of_byte self.old byte }
        ensures kept { self.new ≡ kept_after self.old byte }
        ensures open { IsTrue (is_open self.old) }
        ensures few { length self.old ≤ 401 }
    {
        if is_end(byte) {
            let request = parse_line(self.line.as_slice());
            self.line.clear();
            return request;
        }
        if !self.line.is_full() {
            self.line.push(byte);
        }
        None
    }
}

impl Default for RequestReader {
    ghost is_default = { λ r. r ≡ [] };

    fn default() -> Self {
        Self::new()
    }
}

fn is_end(byte: u8) -> bool
    ensures { result ≡ is_end byte }
{
    byte == b'\n' || byte == b'\r'
}
