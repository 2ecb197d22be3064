//! The sensors that fail. Specs that name this type are cited from other files only.

use crate::block_set::BlockSet;

/// The sensors that fail, by their blocks.
#[derive(Clone, Copy)]
pub struct FailingSensors {
    /// The blocks that are reported as occupied, whatever is there.
    pub occupied: BlockSet,
    /// The blocks that are reported as free, whatever is there.
    pub free: BlockSet,
}
