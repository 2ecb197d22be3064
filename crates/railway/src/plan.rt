//! A track plan.
use crate::block::Block;
use crate::joint::{Joint, Turnout};
use crate::train::Train;
use arrayvec::ArrayVec;

/// The most blocks of a plan.
pub const MAX_BLOCKS: usize = 64;

/// The most joints of a plan.
pub const MAX_JOINTS: usize = 128;

/// The most turnouts of a plan.
pub const MAX_TURNOUTS: usize = 64;

/// The most trains of a plan.
pub const MAX_TRAINS: usize = 64;

/// A track plan with its trains. An end of a block that no joint and no turnout names is a buffer
/// stop.
#[derive(Default, Drop)]
pub struct Plan {
    pub blocks: ArrayVec<Block, MAX_BLOCKS>,
    pub joints: ArrayVec<Joint, MAX_JOINTS>,
    pub turnouts: ArrayVec<Turnout, MAX_TURNOUTS>,
    pub trains: ArrayVec<Train, MAX_TRAINS>,
}
