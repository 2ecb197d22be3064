//! Pairs of address and slot, and the search through them.
ghost use Rattle.std.specs.Prelude.{◌≡◌, ◌<◌, ◌≤◌, ℕ, length, IfOk, IfErr};
ghost use Rattle.slot_table.specs.Index.{IsRising, pair_at};

/// An address and the slot that holds it.
#[derive(Clone, Copy, Default)]
pub(crate) struct Pair {
    pub(crate) address: u16,
    pub(crate) slot: u8,
}

/// The position of an address's pair in a list that ascends by address, or the position to insert
/// it. Each look halves what is left, so of 119 pairs it looks at 7 at most.
pub(crate) fn position(pairs: &[Pair], address: u16) -> Result<usize, usize>
    requires rising { IsRising pairs.now }
    requires few { length pairs.now ≤ 119 }
    ensures within { IfOk result (λ k. k < length pairs.now) }
    ensures there { IfOk result (λ k. (pair_at pairs.now k).address ≡ address) }
    ensures end { IfErr result (λ k. k ≤ length pairs.now) }
    ensures below { IfErr result (λ k. (i : ℕ) → i < k → (pair_at pairs.now i).address < address) }
    ensures above { IfErr result
        (λ k. (i : ℕ) → k ≤ i → i < length pairs.now → address < (pair_at pairs.now i).address) }
{
    let mut low = 0;
    let mut high = pairs.len();
    while low < high {
        let middle = (low + high) / 2;
        let pair = pairs[middle];
        if pair.address == address {
            return Ok(middle);
        }
        if pair.address < address {
            low = middle + 1;
        } else {
            high = middle;
        }
    }
    Err(low)
}
