//! Where a train is.
ghost use Rattle.std.specs.Prelude.{◌≡◌, ◌≤◌, ◌/◌, length, min, slice_get};
ghost use Rattle.railway_text.specs.TrainPlace.{place_of, same_train_place, tenths_of, train_line};

use crate::words::{StateLine, letter_of};
use railway::{Block, End, Place, TrainState, block_name};
use text::push_number;

/// A tenth of a millimetre, in femtometres.
const TENTH: u64 = 100_000_000_000;

/// The words of a train's line behind its name.
#[derive(Clone, Copy)]
pub struct TrainPlace {
    /// The index in the plan of the block of its front, from 0.
    pub front: u8,
    /// How many tenths of that block its front is from end A, 0 to 10, rounded down.
    pub tenths: u8,
    /// The end that its front faces.
    pub facing: End,
    /// The index in the plan of the block of its rear, from 0.
    pub rear: u8,
    /// How fast it runs, in millimetres a second, rounded down.
    pub speed: u32,
    /// Whether it is off the rails.
    pub derailed: bool,
}

impl TrainPlace {
    /// Returns where a train of this speed is on these blocks.
    pub fn of(blocks: &[Block], train: &TrainState, speed: u32) -> TrainPlace
        ensures { result ≡ place_of blocks.now train.now speed }
    {
        TrainPlace {
            front: train.front.block,
            tenths: tenths_of(blocks, train.front),
            facing: train.front.toward,
            rear: train.rear.block,
            speed,
            derailed: train.is_derailed(),
        }
    }

    /// Whether it is this place.
    pub fn is(self, place: TrainPlace) -> bool
        ensures { result ≡ same_train_place self place }
    {
        self.front == place.front
            && self.tenths == place.tenths
            && self.facing.is(place.facing)
            && self.rear == place.rear
            && self.speed == place.speed
            && self.derailed == place.derailed
    }

    /// Returns `TRAIN`, the name of the train, at most 16 bytes, and this place.
    pub fn line(self, name: &str, blocks: &[Block]) -> StateLine
        requires { length name.now ≤ 16 }
        ensures { result.bytes ≡ train_line name.now blocks.now self }
    {
        let mut line = StateLine::new();
        line.push_str("TRAIN ");
        line.push_str(name);
        line.push_str(" ");
        line.push_str(block_name(blocks, usize::from(self.front)));
        line.push_str(" ");
        push_number(&mut line, u64::from(self.tenths));
        line.push_str(" ");
        line.push_str(letter_of(self.facing));
        line.push_str(" ");
        line.push_str(block_name(blocks, usize::from(self.rear)));
        line.push_str(" ");
        push_number(&mut line, u64::from(self.speed));
        line.push_str(if self.derailed { " derailed" } else { "" });
        line
    }
}

/// Returns how many tenths of its block a front is from end A.
fn tenths_of(blocks: &[Block], front: Place) -> u8
    ensures { result ≡ tenths_of blocks.now front }
{
    let way = front.way_from_a();
    match blocks.get(usize::from(front.block)) {
        Some(block) => tenths_in(block, way),
        None => 0,
    }
}

/// Returns how many tenths of a block lie on a way, at most ten.
fn tenths_in(block: &Block, way: u64) -> u8
    ensures { result ≡ min (way / 100000000000 / block.now.length) 10 }
{
    let tenths = way / TENTH;
    match tenths.checked_div(u64::from(block.length)) {
        Some(tenths) => tenths.min(10) as u8,
        None => 0,
    }
}
