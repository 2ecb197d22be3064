//! The least and the greatest numbers of a plan's text.

/// The least and the greatest number at a key.
#[derive(Clone, Copy)]
pub(crate) struct Bounds {
    pub(crate) least: u32,
    pub(crate) most: u32,
}

pub(crate) const VERSION: Bounds = Bounds { least: 1, most: 1 };

/// The length of a block, in millimetres.
pub(crate) const LENGTH: Bounds = Bounds {
    least: 1,
    most: 100_000,
};

/// The length of a train, in millimetres.
pub(crate) const TRAIN_LENGTH: Bounds = Bounds {
    least: 1,
    most: 65_535,
};

/// A sensor, as throttles show its number.
pub(crate) const SENSOR: Bounds = Bounds {
    least: 1,
    most: 4096,
};

/// A switch, as throttles show its number.
pub(crate) const SWITCH: Bounds = Bounds {
    least: 1,
    most: 2040,
};

/// How long a turnout moves, in milliseconds.
pub(crate) const TIME: Bounds = Bounds {
    least: 0,
    most: 10_000,
};

/// How far the front of a train is from end A of its block, in millimetres.
pub(crate) const FRONT: Bounds = Bounds {
    least: 0,
    most: 100_000,
};

/// The speed of a train at the last step, in millimetres a second.
pub(crate) const SPEED: Bounds = Bounds {
    least: 0,
    most: 65_535,
};

/// How fast a train gathers speed or brakes, in millimetres a second each second.
pub(crate) const RATE: Bounds = Bounds {
    least: 1,
    most: 65_535,
};
