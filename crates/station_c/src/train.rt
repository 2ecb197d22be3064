//! Where a train is, for C.
ghost use Rattle.std.specs.Prelude.{◌≡◌};
ghost use Rattle.station_c.specs.Train.{told};

use railway::{End, MILLIMETRE, TrainState};

/// Where a train is, and how fast it runs.
#[repr(C)]
#[derive(Clone, Copy, Debug, PartialEq)]
pub struct Train {
    /// How far its front is from end A of its block, in millimetres, rounded down.
    pub front: u32,
    /// How fast it runs, in millimetres a second, rounded down.
    pub speed: u32,
    /// The switch of the turnout that derailed it, or 0 on the rails.
    pub derailed_at: u16,
    /// The index in the plan of the block of its front, from 0.
    pub block: u8,
    /// The index in the plan of the block of its rear, from 0.
    pub rear_block: u8,
    /// Whether its front faces end B of its block.
    pub faces_b: bool,
}

/// Converts where a train of this speed is for C.
pub(crate) fn told(train: &TrainState, speed: u32) -> Train
    ensures { result ≡ told train.now speed }
{
    Train {
        front: (train.front.way_from_a() / MILLIMETRE) as u32,
        speed,
        derailed_at: train.derailed_at.unwrap_or(0),
        block: train.front.block,
        rear_block: train.rear.block,
        faces_b: train.front.toward == End::B,
    }
}
