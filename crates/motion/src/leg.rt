//! Time cut into parts in which a train goes in one direction, and changes its speed evenly.
ghost use Rattle.std.specs.Prelude.{◌≡◌, ◌≢◌, ◌≤◌, ◌<◌, ◌*◌, ◌/◌, IfSome, IsTrue, MatchOption, min};
ghost use Rattle.motion.specs.Legs.{falling_leg, GivesLeg, IsChange, last_leg, rising_leg, steady_leg};
ghost use Rattle.motion.specs.Velocity.{IsLeg, is_drive, is_facing, sum_below};

use crate::velocity::{Drive, Velocity};

/// The longest part, in microseconds.
pub const LONGEST_LEG: u32 = 1_048_576;

/// A part of a time.
#[derive(Clone, Copy)]
pub struct Leg {
    /// How long it is, in microseconds.
    pub micros: u32,
    /// How far the train goes, in femtometres, in the direction of `velocity`.
    pub way: u64,
    /// The velocity at the end.
    pub velocity: Velocity,
}

impl Velocity {
    /// Returns the first part of a time of `micros` microseconds in which a train is asked for this.
    pub fn leg(self, drive: Drive, micros: u32) -> Leg
        requires goes { 0 < micros }
        requires slow { self.speed ≤ 2199023255552 }
        requires drive { IsTrue (is_drive drive) }
        ensures leg { IsLeg drive self micros result }
    {
        let micros = micros.min(LONGEST_LEG);
        let Some(momentum) = drive.momentum else {
            return steady(drive.forward, drive.speed, micros);
        };
        let (forward, target) = (drive.forward, drive.speed);
        if !self.is_facing(drive) {
            falling(self.forward, self.speed, 0, momentum.braking, micros)
        } else if self.speed < drive.speed {
            rising(forward, self.speed, target, momentum.acceleration, micros)
        } else if self.speed > drive.speed {
            falling(forward, self.speed, target, momentum.braking, micros)
        } else {
            steady(drive.forward, drive.speed, micros)
        }
    }

    /// Whether it stands, or goes in the direction in which it is asked to.
    fn is_facing(self, drive: Drive) -> bool
        ensures { result ≡ is_facing drive self }
    {
        self.speed == 0 || self.forward == drive.forward
    }
}

/// Returns a part at an even speed.
fn steady(forward: bool, speed: u64, micros: u32) -> Leg
    requires slow { speed ≤ 2199023255552 }
    requires short { micros ≤ 1048576 }
    ensures { GivesLeg (steady_leg forward speed micros) result }
{
    Leg {
        micros,
        way: speed * u64::from(micros),
        velocity: Velocity { forward, speed },
    }
}

/// Returns a part in which a train gathers speed, evenly but for the last step.
fn rising(forward: bool, speed: u64, target: u64, rate: u16, micros: u32) -> Leg
    requires { IsChange speed target rate micros }
    ensures { GivesLeg (rising_leg forward speed target rate micros) result }
{
    let Some(steps) = whole_steps(target - speed, rate, micros) else {
        return last(forward, target);
    };
    Leg {
        micros: steps,
        way: u64::from(steps) * speed + u64::from(rate) * sum_below(steps + 1),
        velocity: Velocity {
            forward,
            speed: speed + u64::from(steps) * u64::from(rate),
        },
    }
}

/// Returns a part in which a train brakes, evenly but for the last step.
fn falling(forward: bool, speed: u64, target: u64, rate: u16, micros: u32) -> Leg
    requires { IsChange target speed rate micros }
    ensures { GivesLeg (falling_leg forward speed target rate micros) result }
{
    let Some(steps) = whole_steps(speed - target, rate, micros) else {
        return last(forward, target);
    };
    let base = speed - u64::from(steps) * u64::from(rate);
    Leg {
        micros: steps,
        way: u64::from(steps) * base + u64::from(rate) * sum_below(steps),
        velocity: Velocity {
            forward,
            speed: base,
        },
    }
}

/// Returns how many equal steps of a rate a train makes towards a speed so far away, at most
/// `micros`, if it makes any.
fn whole_steps(difference: u64, rate: u16, micros: u32) -> Option<u32>
    requires { 0 < rate }
    ensures steps { MatchOption result (difference / rate ≡ 0)
        (λ steps. (difference / rate ≢ 0) × (steps ≡ min (difference / rate) micros)) }
    ensures fit { IfSome result (λ steps. steps * rate ≤ difference) }
{
    match difference / u64::from(rate) {
        0 => None,
        steps => Some(least(steps, micros)),
    }
}

/// Returns the last step on the way to a speed.
fn last(forward: bool, target: u64) -> Leg
    ensures { result ≡ last_leg forward target }
{
    Leg {
        micros: 1,
        way: target,
        velocity: Velocity {
            forward,
            speed: target,
        },
    }
}

/// Returns the lesser of the two.
fn least(steps: u64, micros: u32) -> u32
    ensures { result ≡ min steps micros }
{
    if steps < u64::from(micros) {
        steps as u32
    } else {
        micros
    }
}

/// Returns 0 + 1 + .. + (n - 1).
fn sum_below(n: u32) -> u64
    requires { n ≤ 1048577 }
    ensures sum { result ≡ sum_below n }
    ensures small { result ≤ 549756338176 }
{
    let n = u64::from(n);
    n * n.saturating_sub(1) / 2
}
