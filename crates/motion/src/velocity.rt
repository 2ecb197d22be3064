//! The velocity of a train, and what it is asked for.

/// The greatest speed, in femtometres a microsecond: some 2,199 metres a second.
pub const FASTEST: u64 = 2_199_023_255_552;

/// The velocity of a train.
#[derive(Clone, Copy)]
pub struct Velocity {
    pub forward: bool,
    /// Femtometres a microsecond.
    pub speed: u64,
}

/// How fast a train changes its speed, in millimetres a second each second, at least 1.
#[derive(Clone, Copy)]
pub struct Momentum {
    pub acceleration: u16,
    pub braking: u16,
}

/// What a train is asked for.
#[derive(Clone, Copy)]
pub struct Drive {
    pub forward: bool,
    /// Femtometres a microsecond, at most [`FASTEST`].
    pub speed: u64,
    /// How fast it gets there; `None` for at once.
    pub momentum: Option<Momentum>,
}
