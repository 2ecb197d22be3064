//! Trains.
ghost use Rattle.std.specs.Prelude.{◌≡◌, ◌≤◌, ◌<◌, ◌+◌, ◌^◌, IsTrue};
ghost use Rattle.motion.specs.Velocity.{is_drive, is_momentum};
ghost use Rattle.railway.specs.Places.{end_ahead, further, is_derailed, leading_end, moved, same_place, span, still, to_end, turned, turned_place, way_from_a};
ghost use Rattle.railway.specs.Trains.{default_state, default_train, drive_of, is_forward, momentum_of, speed_at, speed_of};

use crate::block::{BlockEnd, End, MILLIMETRE};
use crate::block_set::BlockSet;
use crate::plan::MAX_TRAINS;
use arrayvec::ArrayVec;
use layout_core::{Motion, Running, Steps};
use motion::{Drive, FASTEST, Momentum, Velocity};

/// Where the front of a train is put. The rest is behind it, as the turnouts lie.
#[derive(Clone, Copy)]
pub struct Position {
    /// The index of the block in the plan, from 0.
    pub block: u8,
    /// How far the front of the train is from end A, in millimetres.
    pub at: u32,
    /// The end of the block that the front faces.
    pub facing: End,
}

/// A train of a plan.
#[derive(Clone, Copy)]
pub struct Train {
    /// The index of its decoder, from 0.
    pub decoder: u8,
    /// Its speed at the last speed step, in millimetres a second.
    pub top: u16,
    /// Its length in millimetres, at least 1.
    pub length: u16,
    /// How fast it gathers speed and brakes; `None` for at once.
    pub momentum: Option<Momentum>,
    pub position: Position,
}

/// A millimetre a second, in femtometres a microsecond.
pub(crate) const MILLIMETRE_A_SECOND: u64 = MILLIMETRE / 1_000_000;

/// The velocity of a train at rest.
pub(crate) const STANDSTILL: Velocity = Velocity {
    forward: true,
    speed: 0,
};

/// The trains of a railway.
pub(crate) type Trains = ArrayVec<TrainState, MAX_TRAINS>;

/// A femtometre of the track, and the end of the block that is ahead there.
#[derive(Clone, Copy)]
pub struct Place {
    /// The index of the block in the plan, from 0.
    pub block: u8,
    /// The femtometre of the block, counted from 0 at end A.
    pub at: u64,
    /// The end that is ahead.
    pub toward: End,
}

/// A train as it is on the track.
#[derive(Clone, Copy)]
pub struct TrainState {
    /// The index of its decoder, from 0.
    pub decoder: u8,
    /// Its speed at the last speed step, in millimetres a second.
    pub top: u16,
    /// Its length in millimetres.
    pub length: u16,
    /// How fast it gathers speed and brakes; `None` for at once.
    pub momentum: Option<Momentum>,
    /// The foremost femtometre of the train. The end ahead is where it goes if it runs forward.
    pub front: Place,
    /// The rearmost one. The end ahead is the one on the way to the front.
    pub rear: Place,
    /// How fast its motor runs it, in femtometres a microsecond, and in which direction.
    pub velocity: Velocity,
    /// The switch of the turnout that derailed it, until it is placed again; `None` on the rails.
    pub derailed_at: Option<u16>,
    /// The blocks in which a part of it is.
    pub under: BlockSet,
}

impl Place {
    /// Returns how many femtometres lie ahead in a block of `length` femtometres.
    pub(crate) fn to_end(self, length: u64) -> u64
        ensures { result ≡ to_end length self }
    {
        match self.toward {
            End::A => self.at,
            End::B => length.saturating_sub(1).saturating_sub(self.at),
        }
    }

    /// Returns how far it is from end A, in femtometres, with its own femtometre if end B is ahead.
    pub fn way_from_a(self) -> u64
        ensures way { result ≡ way_from_a self.toward self.at }
    {
        match self.toward {
            End::A => self.at,
            End::B => self.at.saturating_add(1),
        }
    }

    /// Returns the place `way` femtometres ahead in the same block.
    pub(crate) fn further(self, way: u64) -> Place
        requires { self.at + way < 2 ^ 64 }
        ensures { result ≡ further self way }
    {
        let at = match self.toward {
            End::A => self.at.saturating_sub(way),
            End::B => self.at + way,
        };
        Place { at, ..self }
    }

    /// Returns the end ahead.
    pub(crate) fn end_ahead(self) -> BlockEnd
        ensures { result ≡ end_ahead self }
    {
        BlockEnd {
            block: self.block,
            end: self.toward,
        }
    }

    /// Whether it is this place, with the same end ahead.
    pub(crate) fn is(self, place: Place) -> bool
        ensures { result ≡ same_place self place }
    {
        self.block == place.block && self.at == place.at && self.toward.is(place.toward)
    }

    /// Returns the same place with the other end ahead.
    pub(crate) fn turned(self) -> Place
        ensures { result ≡ turned_place self }
    {
        Place {
            toward: self.toward.other(),
            ..self
        }
    }
}

impl TrainState {
    ghost use Rattle.railway.specs.Railway.{train_at};

    /// Whether it stands off the rails.
    pub fn is_derailed(&self) -> bool
        ensures derailed { result ≡ is_derailed self.now }
    {
        self.derailed_at.is_some()
    }

    /// Returns the train seen from behind: its rear leads.
    pub(crate) fn turned(&self) -> TrainState
        ensures { result ≡ turned self.now }
    {
        TrainState {
            front: self.rear.turned(),
            rear: self.front.turned(),
            ..*self
        }
    }

    /// Moves the train `way` femtometres ahead, with both ends in the same blocks.
    pub(crate) fn go(&mut self, way: u64)
        requires front { self.old.front.at + way < 2 ^ 64 }
        requires rear { self.old.rear.at + way < 2 ^ 64 }
        ensures { self.new ≡ moved self.old way }
    {
        self.front.at = self.front.further(way).at;
        self.rear.at = self.rear.further(way).at;
    }

    /// Returns the train where it is, at rest.
    pub(crate) fn still(&self) -> TrainState
        ensures { result ≡ still self.now }
    {
        TrainState {
            velocity: Velocity {
                speed: 0,
                ..self.velocity
            },
            ..*self
        }
    }

    /// Returns the end of the train that leads in a direction, with what lies ahead of it.
    pub(crate) fn leading_end(&self, forward: bool) -> Place
        ensures { result ≡ leading_end forward self.now }
    {
        if forward {
            self.front
        } else {
            self.rear.turned()
        }
    }

    /// Returns the train as one of a plan that has it at a position.
    pub(crate) fn at(&self, position: Position) -> Train
        ensures { result ≡ train_at self.now position }
    {
        Train {
            decoder: self.decoder,
            top: self.top,
            length: self.length,
            momentum: self.momentum,
            position,
        }
    }

    /// Returns how far the front is from the rear, in femtometres.
    pub(crate) fn span(&self) -> u64
        ensures { result ≡ span self.now }
    {
        (u64::from(self.length) * MILLIMETRE).saturating_sub(1)
    }
}

impl Default for Train {
    ghost is_default = { λ train. train ≡ default_train };

    /// A train of one millimetre of the first decoder, at end A of the first block.
    fn default() -> Train {
        Train {
            decoder: 0,
            top: 0,
            length: 1,
            momentum: None,
            position: Position {
                block: 0,
                at: 0,
                facing: End::A,
            },
        }
    }
}

impl Default for TrainState {
    ghost is_default = { λ train. train ≡ default_state };

    /// The default train, at rest where it was put.
    fn default() -> TrainState {
        let place = Place {
            block: 0,
            at: 0,
            toward: End::A,
        };
        TrainState {
            decoder: 0,
            top: 0,
            length: 1,
            momentum: None,
            front: place,
            rear: place,
            velocity: STANDSTILL,
            derailed_at: None,
            under: BlockSet::empty(),
        }
    }
}

/// Returns what a train is asked for by its decoder.
pub(crate) fn drive(train: &TrainState, running: Option<Running>) -> Drive
    requires { IsTrue (is_momentum train.now.momentum) }
    ensures drive { result ≡ drive_of train.now running }
    ensures is_drive { IsTrue (is_drive result) }
{
    Drive {
        forward: is_forward(running),
        speed: speed(train.top, running),
        momentum: momentum(train.momentum, running),
    }
}

/// Returns how fast a train of this momentum gathers speed and brakes: an emergency stop is at once.
fn momentum(momentum: Option<Momentum>, running: Option<Running>) -> Option<Momentum>
    requires { IsTrue (is_momentum momentum) }
    ensures momentum { result ≡ momentum_of running momentum }
    ensures is_momentum { IsTrue (is_momentum result) }
{
    match running {
        Some(running) => match running.motion {
            Motion::Emergency => None,
            Motion::Stop | Motion::Step { .. } => momentum,
        },
        None => momentum,
    }
}

/// Returns the speed of a train of this top speed, in femtometres a microsecond, rounded down.
fn speed(top: u16, running: Option<Running>) -> u64
    ensures speed { result ≡ speed_of top running }
    ensures slow { result ≤ 2199023255552 }
{
    match running {
        None => 0,
        Some(running) => speed_at(top, running.motion),
    }
}

fn speed_at(top: u16, motion: Motion) -> u64
    ensures speed { result ≡ speed_at top motion }
    ensures slow { result ≤ 2199023255552 }
{
    match motion {
        Motion::Stop | Motion::Emergency => 0,
        Motion::Step { of, n } => {
            let top = u64::from(top) * MILLIMETRE_A_SECOND;
            let n = u64::from(n);
            // Constants divide faster than a variable.
            let speed = match of {
                Steps::S14 => top * n.min(14) / 14,
                Steps::S28 => top * n.min(28) / 28,
                Steps::S128 => top * n.min(126) / 126,
            };
            speed.min(FASTEST)
        }
    }
}

/// Whether it runs forward.
pub(crate) fn is_forward(running: Option<Running>) -> bool
    ensures { result ≡ is_forward running }
{
    match running {
        None => true,
        Some(running) => running.forward,
    }
}
