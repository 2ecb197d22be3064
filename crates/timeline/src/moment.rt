//! A moment of a run.

/// A moment of a run: how many turns have begun, and the number of the last one, 0 if there is
/// none.
#[derive(Clone, Copy)]
pub struct Moment {
    pub turn: u64,
    pub number: u64,
}

/// The start of a run.
pub(crate) const START: Moment = Moment { turn: 0, number: 0 };
