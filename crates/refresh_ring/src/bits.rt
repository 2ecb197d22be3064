//! A word of 64 bits.
ghost use Rattle.std.specs.Prelude.{◌≡◌, ◌≢◌, ℕ, ◌≤◌, ◌<◌, ◌==◌, MatchOption, if◌then◌else◌};
ghost use Rattle.std.specs.Int.{bit_at};

/// Whether bit `k` is set.
#[inline]
pub(crate) fn has_bit(word: u64, k: u32) -> bool
    requires { k < 64 }
    ensures { result ≡ (bit_at word k == 1) }
{
    word & (1 << k) != 0
}

/// The word with bit `k` set, or cleared.
#[inline]
pub(crate) fn with_bit(word: u64, k: u32, on: bool) -> u64
    requires { k < 64 }
    ensures same { bit_at result k ≡ (if on then 1 else 0) }
    ensures others { (i : ℕ) → i < 64 → i ≢ k → bit_at result i ≡ bit_at word i }
{
    if on {
        word | (1 << k)
    } else {
        word & !(1 << k)
    }
}

/// The least bit that is set, from bit `k` on.
#[inline]
pub(crate) fn least_bit_from(word: u64, k: u32) -> Option<u32>
    requires { k < 64 }
    ensures { MatchOption result ((i : ℕ) → k ≤ i → bit_at word i ≡ 0)
        (λ n. (k ≤ n) × (n < 64) × (bit_at word n ≡ 1)
        × ((i : ℕ) → k ≤ i → i < n → bit_at word i ≡ 0)) }
{
    let high = word & (u64::MAX << k);
    if high == 0 {
        None
    } else {
        Some(high.trailing_zeros())
    }
}
