//! Blocks with two trains in them.
ghost use Rattle.std.specs.Prelude.{◌≡◌, ◌≤◌, ◌<◌, ◌+◌, ◌^◌, length, IfSome};
ghost use Rattle.railway.specs.Conflicts.{conflict_in, conflicts, first_in};

use crate::block::Block;
use crate::plan::MAX_BLOCKS;
use crate::train::TrainState;
use arrayvec::ArrayVec;

/// Two trains in one block.
#[derive(Clone, Copy, Default, PartialEq, Eq)]
pub struct Conflict {
    /// The index of the block.
    pub block: usize,
    /// The index of the first train in it.
    pub first: usize,
    /// The index of the next one.
    pub second: usize,
}

/// The conflicts of a moment, at most one for each block.
pub type Conflicts = ArrayVec<Conflict, MAX_BLOCKS>;

/// Returns the conflict of each block that has one.
pub(crate) fn conflicts(blocks: &[Block], trains: &[TrainState]) -> Conflicts
    requires blocks { length blocks.now ≤ 64 }
    requires trains { length trains.now ≤ 64 }
    ensures { result.items ≡ conflicts blocks.now trains.now }
{
    let mut found = ArrayVec::new();
    for (i, block) in blocks.iter().enumerate() {
        if let Some(conflict) = conflict_in(i, trains) {
            found.push(conflict);
        }
    }
    found
}

/// Returns the first two trains in a block, if there are two.
fn conflict_in(block: usize, trains: &[TrainState]) -> Option<Conflict>
    requires { length trains.now ≤ 64 }
    ensures { result ≡ conflict_in block trains.now }
{
    let first = next_in(block, 0, trains)?;
    let second = next_in(block, first + 1, &trains[first + 1..])?;
    Some(Conflict {
        block,
        first,
        second,
    })
}

/// Returns the index of the first of these trains that is in a block, counted from `start`.
fn next_in(block: usize, start: usize, trains: &[TrainState]) -> Option<usize>
    requires { start + length trains.now < 2 ^ 63 }
    ensures value { result ≡ first_in block start trains.now }
    ensures within { IfSome result (λ i. i < start + length trains.now) }
{
    for (i, train) in trains.iter().enumerate() {
        if train.occupies(block) {
            return Some(start + i);
        }
    }
    None
}
