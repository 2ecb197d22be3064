//! What has changed on a railway.
use railway::{Block, TrainState};
use roster::Roster;

/// The trains of a railway before and after an outcome, with the blocks of its plan, and the roster
/// that names the trains.
#[derive(Clone, Copy)]
pub(crate) struct Change<'a> {
    pub(crate) roster: Option<&'a Roster>,
    pub(crate) blocks: &'a [Block],
    pub(crate) before: &'a [TrainState],
    pub(crate) after: &'a [TrainState],
}
