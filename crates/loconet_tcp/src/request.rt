//! The requests that a line can make. Specs that name these types are cited from other files only.

use arrayvec::ArrayVec;
use ln_frame::Msg;

/// The request of a line that begins with the word `SEND`, `TURNS`, `PLACE`, `MOUNT` or `FAIL`, or of
/// the line `NODES`, `TRAINS`, `TURNOUTS` or `CVS`.
#[derive(Drop)]
pub enum Request {
    /// Send this message.
    Send(Msg),
    /// The line is invalid for this reason; nothing is sent.
    Invalid(Reason),
    /// Run this number of turns; `None` if the line has no number from 1 to 10,000.
    Turns(Option<u16>),
    /// Tell how these stand.
    States(Things),
    /// Put a train on the track; or why the line does not say where.
    Place(Result<Placement, PlaceError>),
    /// Arrange the devices beside the station.
    Device(DeviceRequest),
}

/// What a client asks of the devices beside the station.
#[derive(Drop)]
pub enum DeviceRequest {
    /// Put the decoder of this name on the programming track, or none; or why the line does not say
    /// which.
    Mount(Result<Option<Word>, MountError>),
    /// Let this fail from now on, or end all failures; or why the line does not say what.
    Fail(Result<Option<Failure>, FailError>),
}

/// What became of a request of the devices beside the station.
#[derive(Clone, Copy)]
pub enum DeviceAnswer {
    /// The decoder, or none, stands on the programming track; or why nothing changed.
    Mount(Result<(), MountError>),
    /// It fails, or nothing does; or why nothing changed.
    Fail(Result<(), FailError>),
}

/// What can fail on request.
#[derive(Clone, Copy, PartialEq, Eq)]
pub enum Failure {
    /// Acknowledgements on the programming track: the decoder obeys, and draws no current.
    Programming,
    /// The sensor of this number: it reports its block as occupied, or as free, whatever is there.
    Sensor { sensor: u16, occupied: bool },
    /// The turnout of this switch: it follows no output of its decoder.
    Turnout { switch: u16 },
}

/// What a client can ask the states of.
#[derive(Clone, Copy, Debug, PartialEq, Eq)]
pub enum Things {
    /// The decoders.
    Nodes,
    /// The trains of the plan.
    Trains,
    /// The turnouts of the plan.
    Turnouts,
    /// The variables of the decoders of the programming track that differ from its file.
    Variables,
}

/// The most bytes that are kept of a name: one more than the longest has, so that a longer word is
/// no name.
pub const LONGEST_WORD: usize = 33;

/// A word that names a train, a block or a decoder.
pub type Word = ArrayVec<u8, LONGEST_WORD>;

/// Where a train is to be put, by the words of a line.
#[derive(Drop)]
pub struct Placement {
    /// The name of the train's decoder.
    pub train: Word,
    /// The name of the block.
    pub block: Word,
    /// How far the front of the train is from end A of the block, in millimetres.
    pub front: u32,
    /// The end that the front faces; `None`: the one that it faces now.
    pub facing: Option<Facing>,
}

/// The end of a block that a train faces.
#[derive(Clone, Copy, Debug, PartialEq, Eq)]
pub enum Facing {
    A,
    B,
}

/// Why nothing is sent. The first reason that applies is reported.
#[derive(Clone, Copy, Debug, PartialEq, Eq)]
pub enum Reason {
    /// The line has more than 400 characters.
    TooLong,
    /// A word after `SEND` is not a pair of hexadecimal digits.
    NotHex,
    /// The bytes do not have the form of a message, or there are none.
    NoMessage,
    /// The bytes have the form of a message, but the check byte is wrong.
    WrongCheck,
}

/// Why no turns are run on request. The first reason that applies is reported.
#[derive(Clone, Copy, Debug, PartialEq, Eq)]
pub enum TurnsError {
    /// The track runs in real time.
    RealTime,
    /// The line has no number from 1 to 10,000.
    NoNumber,
}

/// Why a train is not put on the track. The first reason that applies is reported.
#[derive(Clone, Copy, Debug, PartialEq, Eq)]
pub enum PlaceError {
    /// There is no track plan.
    NoPlan,
    /// The line has more than 400 characters.
    TooLong,
    /// The third word after `PLACE` is no number of one to seven digits.
    NoNumber,
    /// What follows the number is neither `a` nor `b`.
    NoEnd,
    /// No train has a decoder of this name.
    UnknownTrain,
    /// No block has this name.
    UnknownBlock,
    /// The train does not fit into the block there.
    OffTrack,
}

/// Why no decoder is put on the programming track. The first reason that applies is reported.
#[derive(Clone, Copy, Debug, PartialEq, Eq)]
pub enum MountError {
    /// There is no programming track.
    NoTrack,
    /// What follows `MOUNT` is not one word, or the line has more than 400 characters.
    NoName,
    /// No decoder of the file has this name.
    UnknownDecoder,
}

/// Why nothing fails on request. The first reason that applies is reported.
#[derive(Clone, Copy, Debug, PartialEq, Eq)]
pub enum FailError {
    /// What follows `FAIL` is no failure, or the line has more than 400 characters.
    UnknownFailure,
    /// There is no programming track.
    NoTrack,
    /// There is no track plan.
    NoPlan,
    /// No block has a sensor of this number.
    UnknownSensor,
    /// No turnout has a switch of this number.
    UnknownTurnout,
}
