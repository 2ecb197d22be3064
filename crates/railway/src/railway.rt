//! A railway: the track and the trains on it.
ghost use Rattle.std.specs.Prelude.{◌≡◌, ◌<◌, ◌≤◌, ◌||◌, ℕ, Bool, IfErr, IfOk, IsTrue, List, None, OnErr, OnOk, Some, length, map};
ghost use Rattle.std.specs.List.{list_all};
ghost use Rattle.railway.specs.Conflicts.{conflicts};
ghost use Rattle.railway.specs.Faults.{fault_of};
ghost use Rattle.railway.specs.Feedback.{movements_in};
ghost use Rattle.railway.specs.Network.{exit_of};
ghost use Rattle.railway.specs.Railway.{elapsed, is_piece, is_sensed, is_sensed_through, is_railway, laid_in, place_fault, placed_in, planned, reports_in, run_through, speed_in};
ghost use Rattle.railway.specs.Reports.{AreBlocksMarked, AreMarked, changes, changes_through, full, is_occupied, is_report};
ghost use Rattle.railway.specs.Turnouts.{state_of_turnout};

use crate::block::{Block, BlockEnd};
use crate::block_set::BlockSet;
use crate::checking::{decoder_of, fault_of_track};
use crate::conflict::{Conflicts, conflicts};
use crate::exit::Exit;
use crate::failing_sensors::FailingSensors;
use crate::fault::{PlaceFault, PlanFault};
use crate::feedback::{TimeReports, TurnoutReports};
use crate::joint::{Joint, Turnout, TurnoutState};
use crate::one_way::time_one_way;
use crate::passing::LONGEST_TURN;
use crate::placement::has_front;
use crate::plan::{MAX_TURNOUTS, Plan};
use crate::report::{Reports, changes, changes_through, full, is_occupied, occupied};
use crate::track::Track;
use crate::train::{Position, TrainState, Trains};
use arrayvec::ArrayVec;
use decoder_node::{NodeList, NodeSpec};
use layout_core::World;
use std::marker::Model;

/// Trains on a track plan, which run as their decoders run.
///
/// Contracts see it as a `RailwayState`.
#[derive(Drop)]
pub struct Railway {
    pub(crate) track: Track,
    trains: Trains,
    pub(crate) failing: FailingSensors,
}

impl Model for Railway {
    ghost use Rattle.std.specs.Prelude.{IsTrue};
    ghost use Rattle.railway.specs.Railway.{RailwayState, is_railway};

    ghost Value = { RailwayState };

    ghost view = { λ r. record {
      network = r.track;
      trains = r.trains.items;
      failing = r.failing;
    } };

    ghost invariant = { λ r. IsTrue (is_railway (record {
      network = r.track;
      trains = r.trains.items;
      failing = r.failing;
    })) };
}

impl Railway {
    /// Creates the railway of a plan for a layout with these decoders, or returns the first fault
    /// of the plan.
    pub fn new(plan: Plan, decoders: &NodeList) -> Result<Railway, PlanFault>
        ensures ok { IfOk result (λ railway. railway ≡ planned decoders.now.items plan) }
        ensures sound { OnOk result (fault_of decoders.now.items plan ≡ None) }
        ensures fault { IfErr result (λ fault. fault_of decoders.now.items plan ≡ Some fault) }
    {
        let decoders = decoders.as_slice();
        match fault_of_track(decoders, &plan) {
            Some(fault) => return Err(fault),
            None => {}
        }
        let turnouts = turnout_states(decoders, plan.turnouts.as_slice());
        let track = Track {
            blocks: plan.blocks,
            joints: plan.joints,
            turnouts,
        };
        match track.fault_of_all_trains(decoders, plan.trains.as_slice()) {
            Some(fault) => return Err(fault),
            None => {}
        }
        let trains = track.train_states(plan.trains.as_slice());
        Ok(Railway {
            track,
            trains,
            failing: FailingSensors::none(),
        })
    }

    /// What holds of every railway.
    pub fn invariant_holds(&self)
        ensures kept { IsTrue (is_railway self.now) }
    {
        let _track = &self.track;
    }

    /// Lets `micros` microseconds pass in which the decoders of the layout do what they do now.
    ///
    /// A turnout moves to the side of the output that came on last, and takes its time. A train runs as
    /// its decoder runs, up to a buffer stop. It is derailed if a turnout begins to move under it, or
    /// moves or lies against it. Without track power trains and turnouts stand. Returns the reports of the
    /// sensors that found their blocks free before and occupied at a moment of this time, then of those
    /// that found them occupied and now find them free, and of each turnout with feedback that has come to
    /// lie.
    pub fn elapse(&mut self, micros: u32, world: &World) -> TimeReports
        ensures railway { self.new
            ≡ elapsed self.old micros world.now.station.powered.power world.now.nodes }
        ensures reports { result.sensors.items
            ≡ reports_in self.old micros world.now.station.powered.power world.now.nodes }
        ensures turnouts { result.turnouts.items
            ≡ movements_in self.old micros world.now.station.powered.power world.now.nodes }
        ensures sensors { IsTrue (list_all is_report result.sensors.items) }
    {
        let before = self.sensed();
        let turnouts = self.movements(micros, world);
        self.lay(world);
        let sensed = self.pass(micros, world);
        TimeReports {
            sensors: self.changes_through(before, sensed),
            turnouts,
        }
    }

    /// Returns what turnouts report of the next `micros` microseconds.
    #[tactic(auto, using(crate::proofs::Reporting::in_parts))]
    fn movements(&self, micros: u32, world: &World) -> TurnoutReports
        ensures { result.items
            ≡ movements_in self.now micros world.now.station.powered.power world.now.nodes }
    {
        self.track.movements(micros, world)
    }

    /// Lets `micros` microseconds pass in which no decoder does anything else, in pieces. Returns the
    /// blocks that the sensors found occupied at a moment of it.
    fn pass(&mut self, micros: u32, world: &World) -> BlockSet
        ensures railway { self.new
            ≡ run_through world.now.station.powered.power micros world.now.nodes self.old }
        ensures sensed { AreBlocksMarked self.old.network.blocks
            (is_sensed_through world.now.station.powered.power micros world.now.nodes self.old)
            result }
    {
        let mut sensed = self.sensed();
        let mut left = micros;
        while left > 0 {
            let piece = self.piece(left, world);
            self.pass_piece(piece, world);
            let now = self.sensed();
            sensed = sensed.union(now);
            left -= piece;
        }
        sensed
    }

    /// Returns how long of a time no turnout comes to lie before its end, and nothing passes a sensor
    /// unseen: each train goes one way, for at most a turn.
    fn piece(&self, micros: u32, world: &World) -> u32
        requires { 0 < micros }
        ensures goes { 0 < result }
        ensures part { result ≤ micros }
        ensures piece { IsTrue (is_piece world.now.station.powered.power result self.now.network) }
        ensures seen { (block : ℕ) → block < length self.now.network.blocks
            → is_sensed_through world.now.station.powered.power result world.now.nodes self.now
            block
            ≡ (is_sensed self.now block || is_sensed
            (run_through world.now.station.powered.power result world.now.nodes self.now) block) }
    {
        let one_way = time_one_way(self.trains.as_slice(), micros.min(LONGEST_TURN), world);
        self.track.piece(one_way, world)
    }

    /// Lets a time pass in which no turnout comes to lie before its end.
    fn pass_piece(&mut self, micros: u32, world: &World)
        requires goes { 0 < micros }
        requires piece { IsTrue (is_piece world.now.station.powered.power micros
            self.old.network) }
        ensures { self.new
            ≡ run_through world.now.station.powered.power micros world.now.nodes self.old }
    {
        let track = &self.track;
        track.run_all(self.trains.as_mut_slice(), micros, world);
        self.track.advance(micros, world);
    }

    /// Lays the turnouts as their decoders move them, and derails the trains under which one is
    /// thrown.
    fn lay(&mut self, world: &World)
        ensures { self.new ≡ laid_in world.now.nodes self.old }
    {
        if self.track.is_changed(world) {
            self.lay_changed(world);
        }
    }

    /// The same, if the outputs of a turnout's decoder changed. That is rare, and takes room for all
    /// trains a second time.
    #[cold]
    #[inline(never)]
    fn lay_changed(&mut self, world: &World)
        ensures { self.new ≡ laid_in world.now.nodes self.old }
    {
        self.trains = self.track.check_all(self.trains.as_slice(), world);
        self.track.lay(world);
    }
}

impl Railway {
    /// Puts a train on the track, derailed or not: its front at a position, the rest behind it, over any
    /// number of blocks, as the turnouts lie. It is at rest.
    ///
    /// Returns the reports of the sensors that now find their blocks occupied, then of those that find
    /// them free.
    ///
    /// Fails, and changes nothing, if there is no such train or block, if the front is not in the
    /// block there, or if the track behind it ends before the train does.
    pub fn place(&mut self, train: usize, position: Position) -> Result<Reports, PlaceFault>
        ensures fault { IfErr result (λ fault. place_fault self.old train position ≡ Some fault) }
        ensures same { OnErr result (self.new ≡ self.old) }
        ensures fits { OnOk result (place_fault self.old train position ≡ None) }
        ensures railway { OnOk result (self.new ≡ placed_in self.old train position) }
        ensures reports { IfOk result (λ reports. reports.items
            ≡ changes self.old.network.blocks (is_sensed self.old) (is_sensed self.new)) }
        ensures sensors { IfOk result (λ reports. IsTrue (list_all is_report reports.items)) }
    {
        if let Some(fault) = self.place_fault(train, position) {
            return Err(fault);
        }
        let before = self.sensed();
        self.put(train, position);
        Ok(self.changes_since(before))
    }

    /// Puts a train at a position where it can be put.
    fn put(&mut self, train: usize, position: Position)
        requires { place_fault self.old train position ≡ None }
        ensures { self.new ≡ placed_in self.old train position }
    {
        let track = &self.track;
        self.trains = track.replaced(self.trains.as_slice(), train, position);
    }

    /// Returns the blocks that the sensors find occupied.
    pub(crate) fn sensed(&self) -> BlockSet
        ensures { AreMarked (is_sensed self.now) result }
    {
        self.failing.sensed(occupied(self.trains.as_slice()))
    }

    /// Returns what the sensors report that found these blocks occupied before.
    pub(crate) fn changes_since(&self, before: BlockSet) -> Reports
        ensures reports { (was : (block : ℕ) → Bool) → AreMarked was before
            → result.items ≡ changes self.now.network.blocks was (is_sensed self.now) }
        ensures sensors { IsTrue (list_all is_report result.items) }
    {
        let track = &self.track;
        changes(track.blocks.as_slice(), before, self.sensed())
    }

    /// Returns what the sensors report that found these blocks occupied before, and those at a moment of
    /// the time since.
    fn changes_through(&self, before: BlockSet, since: BlockSet) -> Reports
        ensures reports { (was sensed : (block : ℕ) → Bool) → AreMarked was before
            → AreBlocksMarked self.now.network.blocks sensed since
            → result.items
            ≡ changes_through self.now.network.blocks was sensed (is_sensed self.now) }
        ensures sensors { IsTrue (list_all is_report result.items) }
    {
        let track = &self.track;
        changes_through(track.blocks.as_slice(), before, since, self.sensed())
    }

    /// Returns why a train cannot be put at a position, if it cannot.
    fn place_fault(&self, train: usize, position: Position) -> Option<PlaceFault>
        ensures { result ≡ place_fault self.now train position }
    {
        let Some(train) = self.trains.as_slice().get(train) else {
            return Some(PlaceFault::UnknownTrain);
        };
        let track = &self.track;
        let blocks = track.blocks.as_slice();
        if usize::from(position.block) >= blocks.len() {
            return Some(PlaceFault::UnknownBlock);
        }
        if !has_front(blocks, position) || !track.is_room(&train.at(position)) {
            return Some(PlaceFault::OffTrack);
        }
        None
    }

    /// Returns a full report: each sensor, as it finds its block.
    pub fn report_all(&self) -> Reports
        ensures reports { result.items ≡ full self.now.network.blocks (is_sensed self.now) }
        ensures sensors { IsTrue (list_all is_report result.items) }
    {
        let track = &self.track;
        full(track.blocks.as_slice(), self.sensed())
    }

    /// Whether a part of a train is in a block.
    pub fn is_occupied(&self, block: usize) -> bool
        ensures occupied { result ≡ is_occupied self.now.trains block }
    {
        is_occupied(self.trains.as_slice(), block)
    }

    /// Returns the blocks with two or more trains in them.
    pub fn conflicts(&self) -> Conflicts
        ensures conflicts { result.items ≡ conflicts self.now.network.blocks self.now.trains }
    {
        let track = &self.track;
        conflicts(track.blocks.as_slice(), self.trains.as_slice())
    }

    /// Returns the trains, as they are: at most 64.
    pub fn trains(&self) -> &[TrainState]
        ensures trains { result.now ≡ self.now.trains }
        ensures few { length result.now ≤ 64 }
    {
        self.trains.as_slice()
    }

    /// Returns how fast a train runs, in millimetres a second, rounded down; 0 if there is no such
    /// train. At a buffer stop a train stands, whatever its motor does.
    pub fn speed(&self, train: usize) -> u32
        ensures speed { result ≡ speed_in self.now train }
    {
        self.track.speed_in(self.trains.as_slice(), train)
    }

    /// Returns the turnouts, as they lie: at most 64.
    pub fn turnouts(&self) -> &[TurnoutState]
        ensures turnouts { result.now ≡ self.now.network.turnouts }
        ensures few { length result.now ≤ 64 }
    {
        let track = &self.track;
        track.turnouts.as_slice()
    }

    /// Returns the blocks of the plan: at most 64.
    pub fn blocks(&self) -> &[Block]
        ensures blocks { result.now ≡ self.now.network.blocks }
        ensures few { length result.now ≤ 64 }
    {
        let track = &self.track;
        track.blocks.as_slice()
    }

    /// Returns the joints of the plan: at most 128.
    pub fn joints(&self) -> &[Joint]
        ensures joints { result.now ≡ self.now.network.joints }
        ensures few { length result.now ≤ 128 }
    {
        let track = &self.track;
        track.joints.as_slice()
    }

    /// Returns what lies beyond an end of a block, as the turnouts lie.
    pub fn exit(&self, end: BlockEnd) -> Exit
        ensures exit { result ≡ exit_of self.now.network end }
    {
        self.track.exit(end)
    }
}

/// Returns the turnouts of a plan, closed, each with the index of its decoder.
fn turnout_states(
    decoders: &[NodeSpec],
    turnouts: &[Turnout],
) -> ArrayVec<TurnoutState, MAX_TURNOUTS>
    requires decoders { length decoders.now ≤ 64 }
    requires turnouts { length turnouts.now ≤ 64 }
    ensures { result.items ≡ map (state_of_turnout decoders.now) turnouts.now }
{
    let mut states = ArrayVec::new();
    for turnout in turnouts {
        states.push(turnout_state(decoders, turnout));
    }
    states
}

fn turnout_state(decoders: &[NodeSpec], turnout: &Turnout) -> TurnoutState
    requires { length decoders.now ≤ 64 }
    ensures { result ≡ state_of_turnout decoders.now turnout.now }
{
    let decoder = match decoder_of(decoders, turnout.switch) {
        Some(i) => i as u8,
        None => 0,
    };
    TurnoutState {
        turnout: *turnout,
        decoder,
        is_thrown: false,
        left: 0,
        outputs: 0,
        fails: false,
    }
}
