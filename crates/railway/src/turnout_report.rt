//! The report of a turnout. Specs that name this type are cited from other files only.

/// The report of a turnout with feedback: the side at which it lies.
#[derive(Clone, Copy, Default, PartialEq, Eq)]
pub struct TurnoutReport {
    /// The number of its switch, from 1, as throttles show it.
    pub switch: u16,
    /// Whether it lies thrown.
    pub is_thrown: bool,
}
