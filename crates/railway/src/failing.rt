//! Sensors and turnouts that fail on request.
ghost use Rattle.std.specs.Prelude.{◌≡◌, ◌<◌, ◌&&◌, ◌||◌, ℕ, IfSome, IsTrue, false, is_some, length, map, not, Some};
ghost use Rattle.std.specs.List.{list_all, list_any, slice_index_or};
ghost use Rattle.std.specs.Option.{option_eq};
ghost use Rattle.railway.specs.Course.{after, reports_of};
ghost use Rattle.railway.specs.Course.Happening.{FailuresEnd, SensorFails, TurnoutFails};
ghost use Rattle.railway.specs.Failures.{block_with, failing_by, has_switch, none_failing, with_failing, with_sensor};
ghost use Rattle.railway.specs.Reports.{is_report};

use crate::block::Block;
use crate::block_set::BlockSet;
use crate::failing_sensors::FailingSensors;
use crate::joint::TurnoutState;
use crate::plan::MAX_TURNOUTS;
use crate::railway::Railway;
use crate::report::Reports;
use crate::track::Track;
use arrayvec::ArrayVec;

impl FailingSensors {
    /// No sensor fails.
    pub(crate) fn none() -> FailingSensors
        ensures { result ≡ none_failing }
    {
        FailingSensors {
            occupied: BlockSet::empty(),
            free: BlockSet::empty(),
        }
    }

    /// Returns the failing sensors with that of a block, which reports it as occupied, or as free.
    fn with(self, block: u8, occupied: bool) -> FailingSensors
        requires { block < 64 }
        ensures { result ≡ with_sensor self block occupied }
    {
        if occupied {
            FailingSensors {
                occupied: self.occupied.with(block),
                free: self.free.without(block),
            }
        } else {
            FailingSensors {
                occupied: self.occupied.without(block),
                free: self.free.with(block),
            }
        }
    }

    /// Returns the blocks that sensors find occupied while parts of trains are in these.
    pub(crate) fn sensed(&self, occupied: BlockSet) -> BlockSet
        ensures { (block : ℕ) → block < 64
            → slice_index_or result block false
            ≡ ((slice_index_or occupied block false || slice_index_or self.now.occupied block false)
            && not (slice_index_or self.now.free block false)) }
    {
        occupied.union(self.occupied).minus(self.free)
    }
}

impl Railway {
    /// Lets a sensor fail: it reports its block as occupied, or as free, whatever is there, until all
    /// failures end. Returns its report if it did not report so before.
    ///
    /// Returns `None`, and changes nothing, if no block has the sensor.
    pub fn fail_sensor(&mut self, sensor: u16, occupied: bool) -> Option<Reports>
        ensures railway { self.new ≡ after self.old (SensorFails sensor occupied) }
        ensures known { is_some result ≡ is_some (block_with sensor self.old.network.blocks) }
        ensures reports { IfSome result (λ reports. reports.items
            ≡ reports_of self.old (SensorFails sensor occupied)) }
        ensures sensors { IfSome result (λ reports. IsTrue (list_all is_report reports.items)) }
    {
        let block = block_with(self.blocks(), sensor)?;
        let before = self.sensed();
        self.failing = self.failing.with(block as u8, occupied);
        Some(self.changes_since(before))
    }

    /// Lets a turnout fail: it follows no output of its decoder until all failures end. One that moves
    /// comes to lie. Returns false, and changes nothing, if no turnout has the switch.
    pub fn fail_turnout(&mut self, switch: u16) -> bool
        ensures railway { self.new ≡ after self.old (TurnoutFails switch) }
        ensures known { result ≡ has_switch self.old.network.turnouts switch }
    {
        let is_known = self.has_switch(switch);
        self.set_failing(Some(switch));
        is_known
    }

    /// Ends all failures. A turnout stays as it lies until its next output comes on. Returns the
    /// reports of the sensors that find their blocks otherwise than they reported.
    pub fn end_failures(&mut self) -> Reports
        ensures railway { self.new ≡ after self.old FailuresEnd }
        ensures reports { result.items ≡ reports_of self.old FailuresEnd }
        ensures sensors { IsTrue (list_all is_report result.items) }
    {
        let before = self.sensed();
        self.failing = FailingSensors::none();
        self.set_failing(None);
        self.changes_since(before)
    }

    /// Whether a turnout has the switch.
    fn has_switch(&self, switch: u16) -> bool
        ensures { result ≡ has_switch self.now.network.turnouts switch }
    {
        let track = &self.track;
        track
            .turnouts
            .iter()
            .any(|state| state.turnout.switch == switch)
    }

    /// Lets the turnout of a switch fail too, or none.
    fn set_failing(&mut self, switch: Option<u16>)
        ensures { self.new ≡ record self.old { network = with_failing switch self.old.network } }
    {
        self.track.set_failing(switch);
    }
}

impl Track {
    /// Lets the turnout of a switch fail too, or none.
    fn set_failing(&mut self, switch: Option<u16>)
        ensures { self.new ≡ with_failing switch self.old }
    {
        self.turnouts = self.failing_by(switch);
    }

    /// Returns the turnouts, of which that of a switch fails too, or none does.
    fn failing_by(&self, switch: Option<u16>) -> ArrayVec<TurnoutState, MAX_TURNOUTS>
        ensures { result.items ≡ map (failing_by switch) self.now.turnouts }
    {
        let mut turnouts = ArrayVec::new();
        for turnout in self.turnouts.as_slice() {
            turnouts.push(turnout.failing_by(switch));
        }
        turnouts
    }
}

impl TurnoutState {
    /// Returns the turnout, which fails too if it has the switch; without a switch, it does not fail.
    fn failing_by(&self, switch: Option<u16>) -> TurnoutState
        ensures { result ≡ failing_by switch self.now }
    {
        let fails = match switch {
            Some(switch) => self.fails || self.turnout.switch == switch,
            None => false,
        };
        TurnoutState { fails, ..*self }
    }
}

/// Returns the index of the first block that has a sensor.
fn block_with(blocks: &[Block], sensor: u16) -> Option<usize>
    ensures { result ≡ block_with sensor blocks.now }
{
    blocks.iter().position(|block| block.sensor == Some(sensor))
}
