//! A word of 128 bits.
ghost use Rattle.std.specs.Prelude.{◌≡◌, ◌≢◌, ℕ, ◌<◌, MatchOption};
ghost use Rattle.std.specs.Int.{bit_at};
ghost use Rattle.slot_table.specs.Index.{IsLeastBit};

/// The least bit that is set.
pub(crate) fn least_bit(word: u128) -> Option<u8>
    ensures { MatchOption result (word ≡ 0) (IsLeastBit word) }
{
    if word == 0 {
        None
    } else {
        Some(word.trailing_zeros() as u8)
    }
}

/// The word with bit `n` set.
pub(crate) fn with_bit(word: u128, n: u8) -> u128
    requires { n < 128 }
    ensures same { bit_at result n ≡ 1 }
    ensures others { (i : ℕ) → i < 128 → i ≢ n → bit_at result i ≡ bit_at word i }
{
    word | (1 << n)
}

/// The word with bit `n` cleared.
pub(crate) fn without_bit(word: u128, n: u8) -> u128
    requires { n < 128 }
    ensures same { bit_at result n ≡ 0 }
    ensures others { (i : ℕ) → i < 128 → i ≢ n → bit_at result i ≡ bit_at word i }
{
    word & !(1 << n)
}
