//! The track, and how a train runs on it.
ghost use Rattle.std.specs.Prelude.{◌≡◌, ◌==◌, ◌+◌, ◌<◌, ◌≤◌, IsTrue, length, IfSome, if◌then◌else◌, map, None, Some};
ghost use Rattle.std.specs.List.{list_all, list_any};
ghost use Rattle.motion.specs.Velocity.{is_drive};
ghost use Rattle.railway.specs.Blocks.{length_of, no_blocks};
ghost use Rattle.railway.specs.Network.{LeadsOn, LeadsToPlan, across, as_joint, covered, exit_of, first_at, is_against, is_branch, is_end_of, joined, joints_of, last_on, leaves_at, marked, off_rails, onward, partner, place_of, run_on, switch_at, way_on};
ghost use Rattle.railway.specs.Places.{is_on_track, start_at, to_end, turned};
ghost use Rattle.railway.specs.Running.{can_run, is_within};
ghost use Rattle.railway.specs.Turnouts.{is_moved_end};

use crate::block::{Block, BlockEnd, End};
use crate::block_set::BlockSet;
use crate::exit::{Exit, Onward};
use crate::joint::{Joint, TurnoutState};
use crate::plan::{MAX_BLOCKS, MAX_JOINTS, MAX_TURNOUTS};
use crate::reading::{is_moved, running};
use crate::train::{MILLIMETRE_A_SECOND, Place, TrainState, Trains, drive};
use arrayvec::ArrayVec;
use layout_core::{Running, World};
use motion::{Drive, Leg};
use station_core::Power;
use std::marker::Model;

/// Where a way along the track ends.
#[derive(Clone, Copy)]
struct Followed {
    /// The last place on it.
    place: Place,
    /// How much of it is left where the track ends, in femtometres.
    left: u64,
    /// The blocks on it.
    blocks: BlockSet,
}

/// The track: blocks, and what joins their ends.
///
/// Contracts see it as a `Network`.
#[derive(Drop)]
pub(crate) struct Track {
    pub(crate) blocks: ArrayVec<Block, MAX_BLOCKS>,
    pub(crate) joints: ArrayVec<Joint, MAX_JOINTS>,
    pub(crate) turnouts: ArrayVec<TurnoutState, MAX_TURNOUTS>,
}

impl Model for Track {
    ghost use Rattle.std.specs.Prelude.{◌≤◌, length, IsTrue};
    ghost use Rattle.railway.specs.Network.{Network, is_sound};

    ghost Value = { Network };

    ghost view = { λ t. record {
      blocks = t.blocks.items;
      joints = t.joints.items;
      turnouts = t.turnouts.items;
    } };

    ghost invariant = { λ t. IsTrue (is_sound (record {
      blocks = t.blocks.items;
      joints = t.joints.items;
      turnouts = t.turnouts.items;
    })) };
}

impl Joint {
    /// Returns where it leads from an end, if it has this end.
    fn across(&self, end: BlockEnd) -> Option<BlockEnd>
        ensures { result ≡ across self.now end }
    {
        if self.one.is(end) {
            Some(self.two)
        } else if self.two.is(end) {
            Some(self.one)
        } else {
            None
        }
    }
}

impl TurnoutState {
    /// Returns the joint that it is, as it lies.
    fn as_joint(&self) -> Joint
        ensures { result ≡ as_joint self.now }
    {
        let turnout = self.turnout;
        Joint {
            one: turnout.common,
            two: if self.is_thrown {
                turnout.thrown
            } else {
                turnout.closed
            },
        }
    }

    /// Whether the end belongs to it.
    fn has_end(&self, end: BlockEnd) -> bool
        ensures { result ≡ is_end_of end self.now }
    {
        self.turnout.common.is(end) || self.is_branch(end)
    }

    /// Whether it chooses from this end and another.
    fn is_branch(&self, end: BlockEnd) -> bool
        ensures { result ≡ is_branch end self.now }
    {
        self.turnout.closed.is(end) || self.turnout.thrown.is(end)
    }

    /// Whether it derails a train that comes to this end, if it does not lead on from there.
    fn is_against(&self, end: BlockEnd) -> bool
        ensures { result ≡ is_against end self.now }
    {
        if self.is_moving() {
            self.has_end(end)
        } else {
            self.is_branch(end)
        }
    }
}

/// Returns where the joints lead from an end.
fn over_joints(joints: &[Joint], end: BlockEnd) -> Option<BlockEnd>
    ensures { result ≡ partner joints.now end }
{
    for joint in joints {
        if let Some(next) = joint.across(end) {
            return Some(next);
        }
    }
    None
}

/// Returns where the turnouts lead from an end, as they lie.
fn over_turnouts(turnouts: &[TurnoutState], end: BlockEnd) -> Option<BlockEnd>
    ensures { result ≡ partner (joints_of turnouts.now) end }
{
    for turnout in turnouts {
        if turnout.is_moving() {
            continue;
        }
        if let Some(next) = turnout.as_joint().across(end) {
            return Some(next);
        }
    }
    None
}

/// Returns the switch of the turnout that an end belongs to; 0 if it belongs to none.
fn switch_at(turnouts: &[TurnoutState], end: BlockEnd) -> u16
    ensures { result ≡ switch_at turnouts.now end }
{
    for turnout in turnouts {
        if turnout.has_end(end) {
            return turnout.turnout.switch;
        }
    }
    0
}

fn is_against(turnouts: &[TurnoutState], end: BlockEnd) -> bool
    ensures { result ≡ list_any (is_against end) turnouts.now }
{
    turnouts.iter().any(|turnout| turnout.is_against(end))
}

/// Whether an end belongs to a turnout that its decoder moves to its other side.
fn is_moved_end(world: &World, turnouts: &[TurnoutState], end: BlockEnd) -> bool
    ensures { result ≡ is_moved_end world.now.nodes turnouts.now end }
{
    turnouts
        .iter()
        .any(|turnout| turnout.has_end(end) && is_moved(world, turnout))
}

impl Track {
    /// Returns the length of a block in femtometres.
    fn length(&self, block: u8) -> u64
        requires { block < length self.now.blocks }
        ensures length { result ≡ length_of self.now.blocks block }
        ensures shortest { 1 ≤ result }
        ensures longest { result ≤ 100000000000000000 }
    {
        self.blocks.as_slice()[usize::from(block)].femtometres()
    }

    /// Returns what lies beyond an end of a block, as the turnouts lie.
    pub(crate) fn exit(&self, end: BlockEnd) -> Exit
        ensures exit { result ≡ exit_of self.now end }
        ensures of_plan { LeadsToPlan self.now result }
    {
        match self.next(end) {
            Some(next) => Exit::Leads(next),
            None => {
                if is_against(self.turnouts.as_slice(), end) {
                    Exit::Against
                } else {
                    Exit::BufferStop
                }
            }
        }
    }

    /// Returns the end that an end is joined with, as the turnouts lie.
    fn next(&self, end: BlockEnd) -> Option<BlockEnd>
        ensures next { result ≡ partner (joined self.now) end }
        ensures of_plan { IfSome result (λ next. next.block < length self.now.blocks) }
    {
        match over_joints(self.joints.as_slice(), end) {
            Some(next) => Some(next),
            None => over_turnouts(self.turnouts.as_slice(), end),
        }
    }
}

impl Track {
    /// Returns the first femtometre beyond an end.
    fn start_at(&self, end: BlockEnd) -> Place
        requires { end.block < length self.now.blocks }
        ensures place { result ≡ start_at self.now.blocks end }
        ensures on_track { IsTrue (is_on_track self.now.blocks result) }
    {
        let length = self.length(end.block);
        let at = match end.end {
            End::A => 0,
            End::B => length - 1,
        };
        Place {
            block: end.block,
            at,
            toward: end.end.other(),
        }
    }

    /// Returns how many femtometres lie ahead in the block.
    fn to_end(&self, place: Place) -> u64
        requires { IsTrue (is_on_track self.now.blocks place) }
        ensures ahead { result ≡ to_end (length_of self.now.blocks place.block) place }
        ensures fits { place.at + result ≤ 200000000000000000 }
    {
        place.to_end(self.length(place.block))
    }

    /// Returns the femtometre ahead.
    fn onward(&self, place: Place) -> Onward
        requires { IsTrue (is_on_track self.now.blocks place) }
        ensures onward { result ≡ onward self.now place }
        ensures on_track { IfSome (place_of result)
            (λ next. IsTrue (is_on_track self.now.blocks next)) }
    {
        if self.to_end(place) > 0 {
            return Onward::To(place.further(1));
        }
        match self.exit(place.end_ahead()) {
            Exit::Leads(next) => Onward::To(self.start_at(next)),
            Exit::BufferStop => Onward::BufferStop,
            Exit::Against => Onward::Against,
        }
    }

    /// Goes some of the way ahead, at most to the next block. Returns the place and the way that is
    /// left, or `None` if the track ends here.
    fn go_on(&self, place: Place, way: u64) -> Option<(Place, u64)>
        requires on_track { IsTrue (is_on_track self.now.blocks place) }
        requires goes { 0 < way }
        ensures ends { result ≡ None → place_of (onward self.now place) ≡ None }
        ensures goes { IfSome result (λ next. LeadsOn self.now place way next.0 next.1) }
        ensures on_track { IfSome result (λ next. IsTrue (is_on_track self.now.blocks next.0)) }
        ensures less { IfSome result (λ next. next.1 < way) }
    {
        let ahead = self.to_end(place);
        if ahead > 0 {
            let moved = ahead.min(way);
            return Some((place.further(moved), way - moved));
        }
        match self.onward(place) {
            Onward::To(next) => Some((next, way - 1)),
            _ => None,
        }
    }

    /// Goes `way` femtometres ahead, or as far as the track leads.
    fn follow(&self, place: Place, way: u64) -> Followed
        requires { IsTrue (is_on_track self.now.blocks place) }
        ensures way { way_on self.now place way
            ≡ (if result.left == 0 then Some result.place else None) }
        ensures last { last_on self.now place way ≡ result.place }
        ensures covered { covered self.now place way no_blocks ≡ result.blocks }
        ensures on_track { IsTrue (is_on_track self.now.blocks result.place) }
    {
        let _blocks = self.blocks.as_slice();
        let mut blocks = BlockSet::empty().with(place.block);
        let mut place = place;
        let mut left = way;
        while left > 0 {
            match self.go_on(place, left) {
                Some(next) => (place, left) = next,
                None => {
                    return Followed {
                        place,
                        left,
                        blocks,
                    };
                }
            }
            blocks = blocks.with(place.block);
        }
        Followed {
            place,
            left,
            blocks,
        }
    }

    /// Returns the place `way` femtometres ahead, or `None` if the track ends before.
    pub(crate) fn way_on(&self, place: Place, way: u64) -> Option<Place>
        requires { IsTrue (is_on_track self.now.blocks place) }
        ensures way { result ≡ way_on self.now place way }
        ensures on_track { IfSome result (λ there. IsTrue (is_on_track self.now.blocks there)) }
    {
        let followed = self.follow(place, way);
        if followed.left == 0 {
            Some(followed.place)
        } else {
            None
        }
    }

    /// Returns the place `way` femtometres ahead, or the last one if the track ends before.
    pub(crate) fn last_on(&self, place: Place, way: u64) -> Place
        requires { IsTrue (is_on_track self.now.blocks place) }
        ensures last { result ≡ last_on self.now place way }
        ensures on_track { IsTrue (is_on_track self.now.blocks result) }
    {
        self.follow(place, way).place
    }

    /// Lets the train know the blocks from its rear to its front.
    pub(crate) fn mark(&self, train: &mut TrainState)
        requires { IsTrue (is_on_track self.now.blocks train.old.rear) }
        ensures { train.new ≡ marked self.now train.old }
    {
        train.under = self.follow(train.rear, train.span()).blocks;
    }

    /// Whether a way goes on over an end of a turnout that its decoder moves to its other side.
    fn leaves_at_moved(&self, world: &World, place: Place) -> bool
        requires { IsTrue (is_on_track self.now.blocks place) }
        ensures { result
            ≡ leaves_at (is_moved_end world.now.nodes self.now.turnouts) self.now place }
    {
        self.to_end(place) == 0 && is_moved_end(world, self.turnouts.as_slice(), place.end_ahead())
    }

    /// Returns the first place on a way at which it goes on over an end of such a turnout.
    fn moved_at_first(&self, world: &World, place: Place, way: u64) -> Option<Place>
        requires { IsTrue (is_on_track self.now.blocks place) }
        ensures { result
            ≡ first_at (is_moved_end world.now.nodes self.now.turnouts) self.now place way }
    {
        let mut place = place;
        let mut left = way;
        while left > 0 {
            if self.leaves_at_moved(world, place) {
                return Some(place);
            }
            (place, left) = self.go_on(place, left)?;
        }
        None
    }

    /// Returns the train where it is, derailed by the turnout ahead of a place. It stands.
    fn off_rails(&self, train: &TrainState, place: Place) -> TrainState
        ensures { result ≡ off_rails self.now place train.now }
    {
        TrainState {
            derailed_at: Some(switch_at(self.turnouts.as_slice(), place.end_ahead())),
            ..train.still()
        }
    }

    /// Runs a train forward for some of the way, at most into the next blocks. Returns the way that
    /// is left.
    fn run_some(&self, train: &mut TrainState, way: u64) -> u64
        requires within { IsTrue (is_within self.now.blocks train.old) }
        requires goes { 0 < way }
        ensures run { run_on self.now train.old way ≡ run_on self.now train.new result }
        ensures within { IsTrue (is_within self.now.blocks train.new) }
        ensures less { result < way }
    {
        if train.is_derailed() {
            return 0;
        }
        let ahead = self.to_end(train.front).min(self.to_end(train.rear));
        if ahead > 0 {
            let moved = ahead.min(way);
            train.go(moved);
            return way - moved;
        }
        match self.onward(train.front) {
            Onward::BufferStop => 0,
            Onward::Against => {
                *train = self.off_rails(train, train.front);
                0
            }
            Onward::To(front) => match self.onward(train.rear) {
                Onward::To(rear) => {
                    train.front = front;
                    train.rear = rear;
                    way - 1
                }
                _ => 0,
            },
        }
    }

    /// Runs a train forward by so many femtometres.
    fn run_on(&self, train: &mut TrainState, way: u64)
        requires { IsTrue (is_within self.now.blocks train.old) }
        ensures run { train.new ≡ run_on self.now train.old way }
        ensures within { IsTrue (is_within self.now.blocks train.new) }
    {
        let mut left = way;
        while left > 0 {
            left = self.run_some(train, left);
        }
    }
}

impl Track {
    ghost use Rattle.std.specs.Prelude.{slice_get};
    ghost use Rattle.railway.specs.Railway.{run_in, run_under, shown_speed, speed_or_none};
    ghost use Rattle.railway.specs.Running.{moved_at, ridden, run_for};
    ghost use Rattle.railway.specs.Turnouts.{checked};

    /// Runs a train for a part of a time in which it goes in one direction. A derailed one stays where
    /// it is.
    fn run_leg(&self, train: &mut TrainState, leg: Leg)
        requires runs { IsTrue (can_run self.now.blocks train.old) }
        requires slow { leg.velocity.speed ≤ 2199023255552 }
        ensures moved { train.new ≡ moved_at self.now leg.velocity leg.way train.old }
        ensures runs { IsTrue (can_run self.now.blocks train.new) }
    {
        if train.is_derailed() {
            return;
        }
        train.velocity = leg.velocity;
        if leg.velocity.forward {
            self.run_on(train, leg.way);
        } else {
            self.run_back(train, leg.way);
        }
    }

    /// Runs a train backward by so many femtometres: seen from behind, its rear leads.
    fn run_back(&self, train: &mut TrainState, way: u64)
        requires { IsTrue (is_within self.now.blocks train.old) }
        ensures run { train.new ≡ turned (run_on self.now (turned train.old) way) }
        ensures within { IsTrue (is_within self.now.blocks train.new) }
    {
        *train = train.turned();
        self.run_on(train, way);
        *train = train.turned();
    }

    /// Lets a train run for `micros` microseconds in which this is asked of it.
    fn ride(&self, train: &mut TrainState, drive: Drive, micros: u32)
        requires runs { IsTrue (can_run self.now.blocks train.old) }
        requires drive { IsTrue (is_drive drive) }
        ensures ridden { train.new ≡ ridden self.now drive micros train.old }
        ensures runs { IsTrue (can_run self.now.blocks train.new) }
    {
        let mut left = micros;
        while left > 0 {
            let leg = train.velocity.leg(drive, left);
            self.run_leg(train, leg);
            left -= leg.micros;
        }
    }

    /// Lets a train run for `micros` microseconds as its decoder runs. A derailed one stands.
    fn run_for(&self, train: &mut TrainState, micros: u32, running: Option<Running>)
        requires { IsTrue (can_run self.now.blocks train.old) }
        ensures { train.new ≡ run_for self.now micros running train.old }
    {
        if train.is_derailed() {
            return;
        }
        self.ride(train, drive(train, running), micros);
        self.mark(train);
    }

    /// Lets `micros` microseconds pass for these trains: each runs as its decoder runs.
    pub(crate) fn run_all(&self, trains: &mut [TrainState], micros: u32, world: &World)
        requires run { IsTrue (list_all (can_run self.now.blocks) trains.old) }
        ensures { trains.new
            ≡ map (run_under world.now.station.powered.power self.now micros world.now.nodes)
            trains.old }
    {
        for train in trains.iter_mut() {
            self.run_under(train, micros, world);
        }
    }

    /// Lets `micros` microseconds pass for a train. Without track power it stands.
    fn run_under(&self, train: &mut TrainState, micros: u32, world: &World)
        requires { IsTrue (can_run self.now.blocks train.old) }
        ensures { train.new
            ≡ run_under world.now.station.powered.power self.now micros world.now.nodes train.old }
    {
        match world.station().power() {
            Power::Off => *train = train.still(),
            Power::Running | Power::Paused => self.run_in(train, micros, world),
        }
    }

    /// The same with track power.
    fn run_in(&self, train: &mut TrainState, micros: u32, world: &World)
        requires { IsTrue (can_run self.now.blocks train.old) }
        ensures { train.new ≡ run_in self.now micros world.now.nodes train.old }
    {
        let running = running(world, train.decoder);
        self.run_for(train, micros, running);
    }

    /// Returns how fast one of some trains runs, as [`Track::shown_speed`]; 0 if there is no such train.
    pub(crate) fn speed_in(&self, trains: &[TrainState], i: usize) -> u32
        requires { IsTrue (list_all (can_run self.now.blocks) trains.now) }
        ensures { result ≡ speed_or_none self.now (slice_get trains.now i) }
    {
        match trains.get(i) {
            Some(train) => self.shown_speed(train),
            None => 0,
        }
    }

    /// Returns how fast a train runs, in millimetres a second, rounded down: not at all where a buffer
    /// stop holds it.
    fn shown_speed(&self, train: &TrainState) -> u32
        requires { IsTrue (can_run self.now.blocks train.now) }
        ensures { result ≡ shown_speed self.now train.now }
    {
        let velocity = train.velocity;
        match self.onward(train.leading_end(velocity.forward)) {
            Onward::BufferStop => 0,
            Onward::To(_) | Onward::Against => (velocity.speed / MILLIMETRE_A_SECOND) as u32,
        }
    }

    /// Returns a train, derailed by the first turnout from its rear on that is thrown under it.
    fn checked(&self, train: &TrainState, world: &World) -> TrainState
        requires { IsTrue (can_run self.now.blocks train.now) }
        ensures { result ≡ checked world.now.nodes self.now train.now }
    {
        if train.is_derailed() {
            return *train;
        }
        match self.moved_at_first(world, train.rear, train.span()) {
            Some(place) => self.off_rails(train, place),
            None => *train,
        }
    }

    /// Returns these trains, of which each is derailed under which a turnout is thrown.
    pub(crate) fn check_all(&self, trains: &[TrainState], world: &World) -> Trains
        requires few { length trains.now ≤ 64 }
        requires run { IsTrue (list_all (can_run self.now.blocks) trains.now) }
        ensures { result.items ≡ map (checked world.now.nodes self.now) trains.now }
    {
        let mut after = ArrayVec::new();
        for train in trains {
            after.push(self.checked(train, world));
        }
        after
    }
}
