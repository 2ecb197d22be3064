//! The words of a line.
ghost use Rattle.std.specs.Prelude.{◌≡◌, length};
ghost use Rattle.railway_text.specs.Words.{letter_of};

use arrayvec::ArrayString;
use railway::End;

/// The most bytes of a line.
pub const LONGEST_STATE: usize = 160;

/// How a train or a turnout stands: ASCII without a line end.
pub type StateLine = ArrayString<LONGEST_STATE>;

/// Returns the letter of an end of a block.
pub fn letter_of(end: End) -> &'static str
    ensures text { result.now ≡ letter_of end }
    ensures len { length result.now ≡ 1 }
{
    match end {
        End::A => "a",
        End::B => "b",
    }
}
