//! What the handle of a layout holds.
use layout_core::World;
use railway::Railway;

/// A layout, and the railway beside it, if it has a track plan.
#[derive(Drop)]
pub struct Contents {
    pub(crate) world: World,
    pub(crate) railway: Option<Railway>,
}
