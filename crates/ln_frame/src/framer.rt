//! Where messages begin and end in the bytes of a line.
ghost use Rattle.std.specs.Prelude.{◌≡◌, ℕ, List, [], ◌∷◌, ◌++◌, IsTrue, Some, None};
ghost use Rattle.std.specs.Option.{option_to_list};
ghost use Rattle.ln_frame.specs.Message.{IsWhole};
ghost use Rattle.ln_frame.specs.Stream.{message_at_end, messages_of, NeverOverlap};
ghost use Rattle.ln_frame.specs.Unfinished.{is_unfinished, unfinished_of, messages_along};

use crate::msg::{MAX_LEN, Msg, OPCODE, message_len};
use arrayvec::ArrayVec;
use std::marker::Model;

/// Finds the whole messages of a line, byte by byte.
#[derive(Drop)]
pub struct Framer {
    unfinished: ArrayVec<u8, MAX_LEN>,
}

impl Model for Framer {
    ghost Value = { List ℕ };

    ghost view = { λ f. f.unfinished.items };

    ghost invariant = { λ f. IsTrue (is_unfinished f.unfinished.items) };
}

impl Framer {
    /// A framer that has had no byte.
    pub fn new() -> Self
        ensures { result ≡ [] }
    {
        Framer {
            unfinished: ArrayVec::new(),
        }
    }

    /// Takes the next byte, and gives the message that it ends.
    pub fn push(&mut self, byte: u8) -> Option<Msg>
        // The whole message that the bytes now end in.
        ensures given { result ≡ message_at_end (self.old ++ byte ∷ []) }
        ensures unfinished { self.new ≡ unfinished_of (self.old ++ byte ∷ []) }

        ensures open_ended { messages_of self.new ≡ [] }

        // However the bytes go on, no message is lost and none is made up.
        ensures further { (z : List ℕ) → messages_of (self.old ++ byte ∷ z)
            ≡ option_to_list result ++ messages_of (self.new ++ z) }
    {
        if byte >= OPCODE {
            self.unfinished.clear();
            self.unfinished.push(byte);
            return None;
        }
        if self.unfinished.is_empty() {
            return None;
        }
        self.unfinished.push(byte);
        let Some(len) = message_len(self.unfinished[0], self.unfinished[1]) else {
            self.unfinished.clear();
            return None;
        };
        if self.unfinished.len() < len {
            return None;
        }
        Msg::checked(&mut self.unfinished)
    }
}

impl Default for Framer {
    ghost is_default = { λ f. f ≡ [] };

    fn default() -> Self {
        Self::new()
    }
}

/// Byte by byte, and so in whatever pieces, a line gives the messages in its bytes, and no others.
pub fn any_cut()
    ensures whole { (bytes : List ℕ) → messages_along [] bytes ≡ messages_of bytes }
    // So it does behind what an earlier piece left unfinished.
    ensures behind { (left bytes : List ℕ) → unfinished_of left ≡ left
        → messages_along left bytes ≡ messages_of (left ++ bytes) }
{}

/// What the bytes of a line leave unfinished is all of them that a further byte continues.
pub fn left_is_enough()
    ensures message { (bytes : List ℕ) (byte : ℕ)
        → message_at_end (bytes ++ byte ∷ []) ≡ message_at_end (unfinished_of bytes ++ byte ∷ []) }
    ensures unfinished { (bytes : List ℕ) (byte : ℕ)
        → unfinished_of (bytes ++ byte ∷ []) ≡ unfinished_of (unfinished_of bytes ++ byte ∷ []) }
    ensures once { (bytes : List ℕ) → unfinished_of (unfinished_of bytes) ≡ unfinished_of bytes }
{}

/// Two whole messages of the same bytes never overlap.
pub fn never_overlap()
    ensures { (bytes : List ℕ) → NeverOverlap bytes }
{}

/// A whole message ends in itself and leaves nothing unfinished, and each front of it is all
/// unfinished and gives nothing.
pub fn whole_message()
    ensures ends { (message : List ℕ) → IsWhole message → message_at_end message ≡ Some message }
    ensures leaves { (message : List ℕ) → IsWhole message → unfinished_of message ≡ [] }
    ensures fronts { (front rest : List ℕ) (byte : ℕ) → IsWhole (front ++ byte ∷ rest)
        → unfinished_of front ≡ front }
    ensures none { (front rest : List ℕ) (byte next : ℕ) → IsWhole (front ++ byte ∷ next ∷ rest)
        → message_at_end (front ++ byte ∷ []) ≡ None }
{}
