//! Speed steps, and the motion that a locomotive is asked for.
ghost use Rattle.std.specs.Prelude.{◌≡◌, ◌<◌, IsTrue};
ghost use Rattle.dcc_packet.specs.Motions.{is_motion};
ghost use Rattle.dcc_packet.specs.Steps.{steps_of_kind, motion_of};

/// How many steps a decoder has between standing and full speed.
#[derive(Clone, Copy, Debug, PartialEq, Eq)]
pub enum Steps {
    /// 14 steps, in four bits beside F0.
    S14,
    /// 28 steps, in five bits.
    S28,
    /// 126 steps in seven bits, which the standards call 128.
    S128,
}

/// What a locomotive is asked to do.
#[derive(Clone, Copy, PartialEq, Eq)]
pub enum Motion {
    /// Brake and stand.
    Stop,
    /// Stand at once, without braking.
    Emergency,
    /// Run at step `n` of `of`: 1 to 14, 1 to 28 or 1 to 126.
    Step { of: Steps, n: u8 },
}

impl Steps {
    /// The steps of a decoder type, bits 2 to 0 of STAT1, or `None` where the type is none that a slot may have.
    pub fn of_kind(kind: u8) -> Option<Steps>
        ensures { result ≡ steps_of_kind kind }
    {
        match kind {
            2 => Some(Steps::S14),
            0 | 4 => Some(Steps::S28),
            3 | 7 => Some(Steps::S128),
            _ => None,
        }
    }
}

/// The motion that SPD asks for of a decoder with these steps: 0 stops, 1 stops at once, 2 to 127 rise from step 1 to
/// the last, rounded down.
pub fn steps_of(steps: Steps, spd: u8) -> Motion
    requires { spd < 128 }
    ensures value { result ≡ motion_of steps spd }
    ensures fits { IsTrue (is_motion steps result) }
{
    match spd {
        0 => Motion::Stop,
        1 => Motion::Emergency,
        _ => Motion::Step {
            of: steps,
            n: match steps {
                Steps::S14 => 1 + (spd - 2) / 9,
                Steps::S28 => 1 + 2 * (spd - 2) / 9,
                Steps::S128 => spd - 1,
            },
        },
    }
}
