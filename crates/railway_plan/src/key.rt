//! The keys of a plan's text.
ghost use Rattle.std.specs.Prelude.{◌≡◌};
ghost use Rattle.railway_plan.specs.Format.{spelled};

use std::fmt;

/// The keys of the whole.
pub(crate) const PLAN_KEYS: [&'static str; 5] = ["version", "block", "joint", "turnout", "train"];

/// The keys of a block.
pub(crate) const BLOCK_KEYS: [&'static str; 5] = ["name", "length", "sensor", "a", "b"];

/// The key of a joint.
pub(crate) const JOINT_KEYS: [&'static str; 1] = ["ends"];

/// The keys of a turnout.
pub(crate) const TURNOUT_KEYS: [&'static str; 6] = [
    "switch", "common", "closed", "thrown", "time", "feedback",
];

/// The keys of a train.
pub(crate) const TRAIN_KEYS: [&'static str; 8] = [
    "decoder",
    "block",
    "front",
    "facing",
    "length",
    "speed",
    "acceleration",
    "braking",
];

/// A key of a plan's text.
#[derive(Clone, Copy)]
pub enum Key {
    Version,
    Block,
    Joint,
    Turnout,
    Train,
    Name,
    Length,
    Sensor,
    A,
    B,
    Ends,
    Switch,
    Common,
    Closed,
    Thrown,
    Time,
    Feedback,
    Decoder,
    Front,
    Facing,
    Speed,
    Acceleration,
    Braking,
}

impl Key {
    /// Returns the key as it is spelled.
    pub fn as_str(self) -> &'static str
        ensures spelled { result.now ≡ spelled self }
    {
        match self {
            Key::Version => "version",
            Key::Block => "block",
            Key::Joint => "joint",
            Key::Turnout => "turnout",
            Key::Train => "train",
            Key::Name => "name",
            Key::Length => "length",
            Key::Sensor => "sensor",
            Key::A => "a",
            Key::B => "b",
            Key::Ends => "ends",
            Key::Switch => "switch",
            Key::Common => "common",
            Key::Closed => "closed",
            Key::Thrown => "thrown",
            Key::Time => "time",
            Key::Feedback => "feedback",
            Key::Decoder => "decoder",
            Key::Front => "front",
            Key::Facing => "facing",
            Key::Speed => "speed",
            Key::Acceleration => "acceleration",
            Key::Braking => "braking",
        }
    }
}

impl fmt::Display for Key {
    fn fmt<W: fmt::Write>(&self, f: &mut fmt::Formatter<W>) -> fmt::Result {
        f.write_str(self.as_str())
    }
}
