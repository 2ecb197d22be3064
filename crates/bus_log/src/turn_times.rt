//! When a turn begins and ends. Specs that name this type are cited from other files only.

/// When the turn under way began, and when it ends, in microseconds of track time since the start.
#[derive(Clone, Copy)]
pub struct TurnTimes {
    pub began: u64,
    pub ends: u64,
}
