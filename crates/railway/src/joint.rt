//! What joins the ends of blocks: joints and turnouts.
use crate::block::BlockEnd;

/// A joint of two ends of blocks.
#[derive(Clone, Copy, Default)]
pub struct Joint {
    pub one: BlockEnd,
    pub two: BlockEnd,
}

/// A turnout, which joins its common end with one of two others.
#[derive(Clone, Copy, Default)]
pub struct Turnout {
    /// The number of its switch, from 1, as throttles show it.
    pub switch: u16,
    pub common: BlockEnd,
    /// The end that it leads to if it is closed.
    pub closed: BlockEnd,
    /// The end that it leads to if it is thrown.
    pub thrown: BlockEnd,
    /// How long it moves from one side to the other, in milliseconds; 0 for at once.
    pub time: u16,
    /// Whether a contact of its own reports where it lies.
    pub has_feedback: bool,
}

/// A turnout as it lies or moves.
#[derive(Clone, Copy, Default)]
pub struct TurnoutState {
    pub turnout: Turnout,
    /// The index of the accessory decoder that moves it.
    pub decoder: u8,
    /// Whether it lies thrown, or moves there. It is closed until its decoder moves it.
    pub is_thrown: bool,
    /// The microseconds of track power until it lies there; 0 if it does.
    pub left: u32,
    /// The outputs of its decoder when they were seen last: bit i is that of output i.
    pub outputs: u8,
    /// Whether it follows no output, because it fails.
    pub fails: bool,
}
