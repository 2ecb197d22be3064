//! How long trains go one way.
ghost use Rattle.std.specs.Prelude.{◌≡◌, ◌<◌, ◌≤◌, ℕ, IsTrue};
ghost use Rattle.std.specs.List.{list_all};
ghost use Rattle.railway.specs.Laws.{is_one_way};
ghost use Rattle.railway.specs.Trains.{is_movable, running_in, turns_round};

use crate::reading::running;
use crate::train::{TrainState, drive, is_forward};
use layout_core::World;

impl TrainState {
    /// Whether it is to turn round: its motor runs the other way, and has momentum.
    fn turns_round(&self, world: &World) -> bool
        ensures { result
            ≡ turns_round (running_in world.now.nodes self.now.decoder) self.now }
    {
        self.momentum.is_some()
            && self.velocity.speed > 0
            && self.velocity.forward != is_forward(running(world, self.decoder))
    }

    /// Returns how long of a time it goes one way: until it stands, if it is to turn round.
    fn time_one_way(&self, micros: u32, world: &World) -> u32
        requires goes { 0 < micros }
        requires movable { IsTrue (is_movable self.now) }
        ensures goes { 0 < result }
        ensures part { result ≤ micros }
        ensures one_way { (k : ℕ) → k ≤ result → IsTrue (is_one_way world.now.nodes k self.now) }
    {
        if !self.turns_round(world) {
            return micros;
        }
        let drive = drive(self, running(world, self.decoder));
        self.velocity.leg(drive, micros).micros
    }
}

/// Returns how long of a time each of these trains goes one way.
pub(crate) fn time_one_way(trains: &[TrainState], micros: u32, world: &World) -> u32
    requires goes { 0 < micros }
    requires movable { IsTrue (list_all is_movable trains.now) }
    ensures goes { 0 < result }
    ensures part { result ≤ micros }
    ensures one_way { (k : ℕ) → k ≤ result
        → IsTrue (list_all (is_one_way world.now.nodes k) trains.now) }
{
    let mut left = micros;
    for train in trains {
        left = train.time_one_way(left, world);
    }
    left
}
