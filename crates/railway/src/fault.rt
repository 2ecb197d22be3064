//! Why a plan is refused.
use crate::block::{BlockEnd, Name};

/// A part of a plan, by its index from 0.
#[derive(Clone, Copy)]
pub enum Part {
    Joint(usize),
    Turnout(usize),
    Train(usize),
}

/// Why a plan is refused. Blocks and trains are named by their index from 0.
#[derive(Clone, Copy)]
pub enum PlanFault {
    /// The block is not 1 to 100,000 millimetres long.
    BlockLength(usize),
    /// The block has the name of a later one.
    NameTwice(usize),
    /// The sensor of the block is not 1 to 4096.
    Sensor(usize),
    /// The block has the sensor of a later one.
    SensorTwice(usize),
    /// The part names a block that is not in the plan.
    UnknownBlock(Part),
    /// Joints and turnouts name this end twice.
    EndTwice(BlockEnd),
    /// The layout has no decoder that moves the turnout or runs the train.
    UnknownDecoder(Part),
    /// The train has the decoder of a later one.
    DecoderTwice(usize),
    /// The train is shorter than a millimetre.
    TrainLength(usize),
    /// The acceleration or the braking of the train is 0.
    Momentum(usize),
    /// The front of the train is not in its block where it is put.
    OffTrack(usize),
    /// The track behind the train, which has this decoder, ends in the block of this name before the
    /// train does.
    LongTrain {
        train: usize,
        decoder: u8,
        block: Name,
    },
    /// The train, which has this decoder, could enter the block of this name, the first of the
    /// shortest, and leave it again within a turn.
    FastTrain {
        train: usize,
        decoder: u8,
        block: Name,
    },
}

/// Why a train was not placed.
#[derive(Clone, Copy, Debug, PartialEq, Eq)]
pub enum PlaceFault {
    /// No train has this index.
    UnknownTrain,
    /// No block has this index.
    UnknownBlock,
    /// The front of the train is not in the block there, or the track behind it ends before the train.
    OffTrack,
}
