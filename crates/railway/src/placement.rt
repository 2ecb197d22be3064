//! How trains are put on the track.
ghost use Rattle.std.specs.Prelude.{◌≡◌, ◌<◌, ◌≤◌, IsTrue, length, map, slice_set};
ghost use Rattle.std.specs.List.{list_all, slice_index_or};
ghost use Rattle.railway.specs.Blocks.{default_block};
ghost use Rattle.railway.specs.Faults.{block_behind};
ghost use Rattle.railway.specs.Network.{last_on, way_on};
ghost use Rattle.railway.specs.Placement.{back_of, front_of, has_front, is_front, is_room, span_of, state_of_train};
ghost use Rattle.railway.specs.Places.{is_on_track, turned_place};
ghost use Rattle.railway.specs.Railway.{replaced};
ghost use Rattle.railway.specs.Trains.{default_state};

use crate::block::{Block, End, MILLIMETRE, Name};
use crate::block_set::BlockSet;
use crate::track::Track;
use crate::train::{Place, Position, STANDSTILL, Train, TrainState, Trains};
use arrayvec::ArrayVec;

impl Train {
    /// Returns how far its front is from its rear, in femtometres.
    fn span(&self) -> u64
        ensures { result ≡ span_of self.now }
    {
        (u64::from(self.length) * MILLIMETRE).saturating_sub(1)
    }
}

/// Whether a front is in a block of this length, in millimetres.
fn is_front(length: u32, position: Position) -> bool
    ensures { result ≡ is_front length position.at position.facing }
{
    match position.facing {
        End::A => position.at < length,
        End::B => 1 <= position.at && position.at <= length,
    }
}

/// Whether the front of a train is in the block where it is put.
pub(crate) fn has_front(blocks: &[Block], position: Position) -> bool
    requires { position.block < length blocks.now }
    ensures { result ≡ has_front blocks.now position }
{
    is_front(blocks[usize::from(position.block)].length, position)
}

/// Returns the foremost femtometre of a train.
fn front_of(position: Position) -> Place
    requires { position.at ≤ 100000 }
    ensures { result ≡ front_of position }
{
    let at = u64::from(position.at) * MILLIMETRE;
    Place {
        block: position.block,
        at: match position.facing {
            End::A => at,
            End::B => at.saturating_sub(1),
        },
        toward: position.facing,
    }
}

impl Track {
    /// Returns the foremost femtometre of a train that is put there.
    fn front(&self, position: Position) -> Place
        requires block { position.block < length self.now.blocks }
        requires front { IsTrue (has_front self.now.blocks position) }
        ensures front { result ≡ front_of position }
        ensures on_track { IsTrue (is_on_track self.now.blocks result) }
    {
        let _blocks = &self.blocks;
        front_of(position)
    }

    /// Returns where the track behind a train leads over its length, if it leads so far.
    fn back(&self, train: &Train) -> Option<Place>
        requires block { train.now.position.block < length self.now.blocks }
        requires front { IsTrue (has_front self.now.blocks train.now.position) }
        ensures back { result ≡ back_of self.now train.now }
    {
        self.way_on(self.front(train.position).turned(), train.span())
    }

    /// Whether the track behind a train is as long as the train.
    pub(crate) fn is_room(&self, train: &Train) -> bool
        requires block { train.now.position.block < length self.now.blocks }
        requires front { IsTrue (has_front self.now.blocks train.now.position) }
        ensures { result ≡ is_room self.now train.now }
    {
        self.back(train).is_some()
    }

    /// Returns the name of the block in which the track behind a train ends.
    pub(crate) fn block_behind(&self, train: &Train) -> Name
        requires block { train.now.position.block < length self.now.blocks }
        requires front { IsTrue (has_front self.now.blocks train.now.position) }
        ensures { result ≡ (block_behind self.now train.now).name }
    {
        let place = self.last_on(self.front(train.position).turned(), train.span());
        self.blocks.as_slice()[usize::from(place.block)].name
    }

    /// Returns a train at rest, its front where it is put.
    fn placed(&self, train: &Train) -> TrainState
        requires block { train.now.position.block < length self.now.blocks }
        requires front { IsTrue (has_front self.now.blocks train.now.position) }
        ensures { result ≡ state_of_train self.now train.now }
    {
        let front = self.front(train.position);
        let back = match self.way_on(front.turned(), train.span()) {
            Some(back) => back,
            None => front.turned(),
        };
        let mut placed = TrainState {
            decoder: train.decoder,
            top: train.top,
            length: train.length,
            momentum: train.momentum,
            front,
            rear: back.turned(),
            velocity: STANDSTILL,
            derailed_at: None,
            under: BlockSet::empty(),
        };
        self.mark(&mut placed);
        placed
    }
}

impl Track {
    ghost use Rattle.railway.specs.Railway.{train_at};
    ghost use Rattle.railway.specs.Placement.{is_in_block};

    /// Returns the trains of a plan, as they are put.
    pub(crate) fn train_states(&self, trains: &[Train]) -> Trains
        requires few { length trains.now ≤ 64 }
        requires in_blocks { IsTrue (list_all (is_in_block self.now.blocks) trains.now) }
        ensures { result.items ≡ map (state_of_train self.now) trains.now }
    {
        let mut states = ArrayVec::new();
        for train in trains {
            states.push(self.placed(train));
        }
        states
    }

    /// Returns these trains, with one of them put at a position.
    pub(crate) fn replaced(&self, trains: &[TrainState], i: usize, position: Position) -> Trains
        requires few { length trains.now ≤ 64 }
        requires train { i < length trains.now }
        requires block { position.block < length self.now.blocks }
        requires front { IsTrue (has_front self.now.blocks position) }
        ensures { result.items ≡ slice_set trains.now i
            (replaced self.now (slice_index_or trains.now i default_state) position) }
    {
        let train = trains[i];
        let mut after = copied(trains);
        after.as_mut_slice()[i] = self.placed(&train.at(position));
        after
    }
}

fn copied(trains: &[TrainState]) -> Trains
    requires { length trains.now ≤ 64 }
    ensures { result.items ≡ trains.now }
{
    let mut copy = ArrayVec::new();
    for train in trains {
        copy.push(*train);
    }
    copy
}
