//! Texts of limited length that ASCII is appended to.
ghost use Rattle.std.specs.Prelude.{◌≡◌, ◌<◌, ◌≤◌, ◌+◌, ◌++◌, ◌∷◌, [], ℕ, List, length};
ghost use Rattle.arrayvec.specs.ArrayVec.{array_vec_len};

use arrayvec::{ArrayString, ArrayVec};

/// A text of limited length that ASCII is appended to.
pub trait PushAscii {
    /// The bytes of the text.
    ghost bytes: { Self → List ℕ };

    /// The most bytes that the text may have.
    ghost capacity: { ℕ };

    /// Appends an ASCII byte, for which there must be room.
    fn push_ascii(&mut self, byte: u8)
        requires room { length (bytes self.old) < capacity }
        requires ascii { byte < 128 }
        ensures { bytes self.new ≡ bytes self.old ++ byte ∷ [] };
}

impl<const N: usize> PushAscii for ArrayVec<u8, N> {
    ghost bytes = { λ text. text.items };

    ghost capacity = { N };

    #[inline]
    fn push_ascii(&mut self, byte: u8) {
        self.push(byte);
    }
}

impl<const N: usize> PushAscii for ArrayString<N> {
    ghost bytes = { λ text. text.bytes };

    ghost capacity = { N };

    #[inline]
    fn push_ascii(&mut self, byte: u8) {
        self.push(char::from(byte));
    }
}

/// Appends bytes, for which there must be room.
#[inline]
pub fn push_bytes<const N: usize>(text: &mut ArrayVec<u8, N>, bytes: &[u8])
    requires { array_vec_len text.old + length bytes.now ≤ N }
    ensures text { text.new.items ≡ text.old.items ++ bytes.now }
    ensures len { array_vec_len text.new ≡ array_vec_len text.old + length bytes.now }
{
    let _fits = text.try_extend_from_slice(bytes);
}
