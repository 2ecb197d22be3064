//! Sets of blocks.
ghost use Rattle.std.specs.Prelude.{◌≡◌, ◌<◌, ◌||◌, ◌&&◌, ℕ, not, slice_set, true, false};
ghost use Rattle.std.specs.Bool.{beq};
ghost use Rattle.std.specs.Cmp.Lexicographic.{pointwise};
ghost use Rattle.std.specs.List.{slice_index_or};
ghost use Rattle.railway.specs.Blocks.{no_blocks};

use std::marker::Model;

/// A set of blocks of a plan, by their index from 0.
///
/// Contracts see it as one mark for each of [`MAX_BLOCKS`](crate::MAX_BLOCKS) blocks.
#[derive(Clone, Copy)]
pub struct BlockSet {
    /// Bit i is that of block i.
    bits: u64,
}

impl Model for BlockSet {
    ghost use Rattle.std.proofs.Common.{ap};
    ghost use Rattle.std.specs.Prelude.{◌<◌, ◌^◌, ℕ, Bool, List};
    ghost use Rattle.railway.specs.BlockSets.{marks_of, number-marks, number_of};

    ghost Value = { List Bool };

    ghost view = { λ set. marks_of set.bits };

    ghost invariant = { λ set. set.bits < 2 ^ 64 };

    ghost inverse = { λ marks. record { bits = number_of marks } };

    ghost inverse_ok = { λ set h.
        ap (λ (bits : ℕ). record { bits = bits }) (number-marks 64 set.bits h) };
}

impl BlockSet {
    /// Returns the set of no blocks.
    pub(crate) fn empty() -> BlockSet
        ensures { result ≡ no_blocks }
    {
        BlockSet { bits: 0 }
    }

    /// Whether a block is in the set.
    pub(crate) fn has(self, block: usize) -> bool
        requires { block < 64 }
        ensures { result ≡ slice_index_or self block false }
    {
        (self.bits >> block) & 1 == 1
    }

    /// Returns the set with a block more.
    pub(crate) fn with(self, block: u8) -> BlockSet
        requires { block < 64 }
        ensures { result ≡ slice_set self block true }
    {
        BlockSet {
            bits: self.bits | (1 << block),
        }
    }

    /// Returns the set without a block.
    pub(crate) fn without(self, block: u8) -> BlockSet
        requires { block < 64 }
        ensures { result ≡ slice_set self block false }
    {
        BlockSet {
            bits: self.bits & !(1 << block),
        }
    }

    /// Returns the blocks of this set that are not in another.
    pub(crate) fn minus(self, other: BlockSet) -> BlockSet
        ensures { (block : ℕ) → block < 64
            → slice_index_or result block false
            ≡ (slice_index_or self block false && not (slice_index_or other block false)) }
    {
        BlockSet {
            bits: self.bits & !other.bits,
        }
    }

    /// Returns the blocks of both sets.
    pub(crate) fn union(self, other: BlockSet) -> BlockSet
        ensures { (block : ℕ) → block < 64
            → slice_index_or result block false
            ≡ (slice_index_or self block false || slice_index_or other block false) }
    {
        BlockSet {
            bits: self.bits | other.bits,
        }
    }

    /// Whether it is this set.
    pub(crate) fn is(self, other: BlockSet) -> bool
        ensures { result ≡ pointwise beq self other }
    {
        self.bits == other.bits
    }
}
