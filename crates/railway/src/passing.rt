//! Trains that are so fast that they could enter a block and leave it within a turn.
ghost use Rattle.std.specs.Prelude.{◌≡◌, ◌≤◌};
ghost use Rattle.railway.specs.Passing.{fault_of_speed, fault_of_speeds, passes_unseen, shorter, shortest};

use crate::block::Block;
use crate::fault::PlanFault;
use crate::train::Train;

/// The longest time in which the decoders do the same, in microseconds: that of a turn.
pub(crate) const LONGEST_TURN: u32 = 10_740;

/// The millionths of a millimetre.
const MILLIONTHS: u64 = 1_000_000;

/// Whether a train could enter a block of this length in millimetres and leave it again within a
/// turn, at its speed at the last step.
fn passes_unseen(train: &Train, length: u32) -> bool
    ensures { result ≡ passes_unseen train.now.top train.now.length length }
{
    let most = u64::from(train.top) * u64::from(LONGEST_TURN);
    (u64::from(train.length) + u64::from(length)) * MILLIONTHS <= most
}

/// Returns the shorter of two blocks, the first of two that are as long.
fn shorter(least: Option<Block>, block: Block) -> Block
    ensures { result ≡ shorter least block }
{
    match least {
        Some(least) if least.length <= block.length => least,
        _ => block,
    }
}

/// Returns the first of the shortest blocks.
fn shortest(blocks: &[Block]) -> Option<Block>
    ensures { result ≡ shortest None blocks.now }
{
    let mut least = None;
    for block in blocks {
        least = Some(shorter(least, *block));
    }
    least
}

/// Returns the fault of a train that could pass this block within a turn.
fn fault_of_speed(block: &Option<Block>, i: usize, train: &Train) -> Option<PlanFault>
    ensures { result ≡ fault_of_speed block.now i train.now }
{
    match block {
        Some(block) if passes_unseen(train, block.length) => Some(PlanFault::FastTrain {
            train: i,
            decoder: train.decoder,
            block: block.name,
        }),
        _ => None,
    }
}

/// Returns the first fault of the speeds of the trains of a plan.
pub(crate) fn fault_of_speeds(blocks: &[Block], trains: &[Train]) -> Option<PlanFault>
    ensures { result ≡ fault_of_speeds (shortest None blocks.now) 0 trains.now }
{
    let block = shortest(blocks);
    for (i, train) in trains.iter().enumerate() {
        if let Some(fault) = fault_of_speed(&block, i, train) {
            return Some(fault);
        }
    }
    None
}
