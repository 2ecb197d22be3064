//! Why the text of a plan is refused.
ghost use Rattle.std.specs.Prelude.{◌≡◌, slice_get};
ghost use Rattle.roster.specs.Decoders.{decoder_name};
ghost use Rattle.railway_plan.specs.Railways.{HasNames, IsTextFault, number_of, section_at, section_of, why_of};

use crate::bounds::{Bounds, FRONT, LENGTH, RATE, SENSOR, SPEED, SWITCH, TIME};
use crate::key::Key;
use arrayvec::ArrayString;
use railway::{End, Name, Part, PlanFault};
use roster::{Roster, decoder_name};
use std::fmt;

/// The name of a train, which is that of its decoder.
pub type TrainName = ArrayString<16>;

/// Why the text of a plan is refused.
#[derive(Clone, Copy)]
pub enum Reason {
    /// The text is not TOML, or not UTF-8.
    NotToml,
    /// The table has a key that such a table does not have.
    UnknownKey,
    /// The key is missing, or its value is of another type or out of its bounds.
    BadKey(Key),
    /// The array at the key has too many members.
    TooMany(Key),
    /// The member of an array is not a table.
    NotTable,
    /// No block of the plan has the end at the key; of a joint, that of this index of its two.
    UnknownEnd { key: Key, index: usize },
    /// No block of the plan has this name.
    UnknownBlock,
    /// No decoder of the roster has this name.
    UnknownDecoder,
    /// A later block has the name of this one.
    RepeatedName,
    /// A later block has the sensor of this one.
    RepeatedSensor,
    /// Joints and turnouts name this end of the block twice.
    RepeatedEnd(End),
    /// No decoder of the roster moves the turnout, or the decoder of the train runs no locomotive.
    NoDecoder,
    /// A later train has the decoder of this one.
    RepeatedDecoder,
    /// The front of the train is not in its block.
    OffTrack,
    /// The track behind the train ends before the train does.
    LongTrain,
    /// The train could pass the shortest block within a turn, so that no sensor reports it.
    FastTrain,
    /// Out of memory.
    NoMemory,
}

/// A part of a plan's text, by its number from 1.
#[derive(Clone, Copy)]
pub enum Section {
    Whole,
    Block(usize),
    Joint(usize),
    Turnout(usize),
    Train(usize),
}

/// The first fault of a plan's text, and the part that has it.
#[derive(Clone, Copy)]
pub struct PlanTextFault {
    pub section: Section,
    pub why: Reason,
    /// If a train is too long or too fast, the names of the train and of a block.
    pub names: Option<TrainNames>,
}

/// The name of a train, and that of the block in which the track behind it ends, or of the shortest.
#[derive(Clone, Copy)]
pub struct TrainNames {
    pub train: TrainName,
    pub block: Name,
}

/// Writes between which numbers that at a key must be.
pub(crate) fn write_bounds<W: fmt::Write>(
    key: Key,
    bounds: Bounds,
    f: &mut fmt::Formatter<W>,
) -> fmt::Result {
    let (least, most) = (bounds.least, bounds.most);
    write!(f, "{key} must be {least} to {most}")
}

/// Returns the number, from 1, of the part of an index.
fn number_of(index: usize) -> usize
    ensures { result ≡ number_of index }
{
    index.saturating_add(1)
}

/// Returns the section of a part of a plan.
fn section_of(part: Part) -> Section
    ensures { result ≡ section_of part }
{
    match part {
        Part::Joint(i) => Section::Joint(number_of(i)),
        Part::Turnout(i) => Section::Turnout(number_of(i)),
        Part::Train(i) => Section::Train(number_of(i)),
    }
}

/// Returns where a plan has a fault, and the reason.
fn place_of(fault: PlanFault) -> (Section, Reason)
    ensures section { result.0 ≡ section_at fault }
    ensures why { result.1 ≡ why_of fault }
{
    match fault {
        PlanFault::BlockLength(i) => (Section::Block(number_of(i)), Reason::BadKey(Key::Length)),
        PlanFault::NameTwice(i) => (Section::Block(number_of(i)), Reason::RepeatedName),
        PlanFault::Sensor(i) => (Section::Block(number_of(i)), Reason::BadKey(Key::Sensor)),
        PlanFault::SensorTwice(i) => (Section::Block(number_of(i)), Reason::RepeatedSensor),
        PlanFault::UnknownBlock(part) => (section_of(part), Reason::UnknownBlock),
        PlanFault::EndTwice(end) => {
            (
                Section::Block(number_of(usize::from(end.block))),
                Reason::RepeatedEnd(end.end),
            )
        }
        PlanFault::UnknownDecoder(part) => (section_of(part), Reason::NoDecoder),
        PlanFault::DecoderTwice(i) => (Section::Train(number_of(i)), Reason::RepeatedDecoder),
        PlanFault::TrainLength(i) => (Section::Train(number_of(i)), Reason::BadKey(Key::Length)),
        PlanFault::Momentum(i) => (
            Section::Train(number_of(i)),
            Reason::BadKey(Key::Acceleration),
        ),
        PlanFault::OffTrack(i) => (Section::Train(number_of(i)), Reason::OffTrack),
        PlanFault::LongTrain { train, .. } => (Section::Train(number_of(train)), Reason::LongTrain),
        PlanFault::FastTrain { train, .. } => (Section::Train(number_of(train)), Reason::FastTrain),
    }
}

/// Returns the name of a decoder of a roster, by its index from 0.
fn train_name(roster: &Roster, decoder: u8) -> TrainName
    ensures { result.bytes ≡ decoder_name (slice_get roster.now decoder) }
{
    let mut name = TrainName::new();
    name.push_str(decoder_name(Some(roster), usize::from(decoder)));
    name
}

/// Returns the names of a train of a plan that is too long or too fast, and of a block; none of
/// another fault.
fn names_of(roster: &Roster, fault: &PlanFault) -> Option<TrainNames>
    ensures { HasNames roster.now fault.now result }
{
    match fault {
        PlanFault::LongTrain { decoder, block, .. } | PlanFault::FastTrain { decoder, block, .. } =>
            Some(TrainNames {
                train: train_name(roster, *decoder),
                block: *block,
            }),
        _ => None,
    }
}

/// Returns the fault of a plan for the decoders of a roster, as one of its text.
pub(crate) fn text_fault(roster: &Roster, fault: PlanFault) -> PlanTextFault
    ensures { IsTextFault roster.now fault result }
{
    let names = names_of(roster, &fault);
    let (section, why) = place_of(fault);
    PlanTextFault {
        section,
        why,
        names,
    }
}

/// What the value at a key must be.
enum Demand {
    /// A number from the least to the most.
    Number(Bounds),
    /// What the words say.
    Words(&'static str),
}

/// Returns what the value at a key must be.
fn demand_of(key: Key) -> Demand {
    match key {
        Key::Version => Demand::Words("1"),
        Key::Block | Key::Joint | Key::Turnout | Key::Train => Demand::Words("an array of tables"),
        Key::Name => Demand::Words("1 to 32 ASCII letters, digits, - or _"),
        Key::Decoder => Demand::Words("a name of the roster"),
        Key::Length => Demand::Number(LENGTH),
        Key::Sensor => Demand::Number(SENSOR),
        Key::Switch => Demand::Number(SWITCH),
        Key::Front => Demand::Number(FRONT),
        Key::Speed => Demand::Number(SPEED),
        Key::Time => Demand::Number(TIME),
        Key::Acceleration | Key::Braking => Demand::Number(RATE),
        Key::Feedback => Demand::Words("true or false"),
        Key::A | Key::B => Demand::Words("two numbers from -10000 to 10000"),
        Key::Ends => Demand::Words("two ends of blocks"),
        Key::Common | Key::Closed | Key::Thrown => Demand::Words("an end of a block"),
        Key::Facing => Demand::Words("a or b"),
    }
}

/// Writes what the value at a key must be.
fn write_demand<W: fmt::Write>(key: Key, f: &mut fmt::Formatter<W>) -> fmt::Result {
    match demand_of(key) {
        Demand::Number(bounds) => write_bounds(key, bounds, f),
        Demand::Words(words) => write!(f, "{key} must be {words}"),
    }
}

/// Returns the words of a reason that names no key.
fn words_of(why: Reason) -> &'static str {
    match why {
        Reason::NotToml => "it is not TOML",
        Reason::UnknownKey => "a key is unknown",
        Reason::NotTable => "it is not a table",
        Reason::UnknownBlock => "no block has this name",
        Reason::UnknownDecoder => "the roster has no decoder of this name",
        Reason::RepeatedName => "another block has this name",
        Reason::RepeatedSensor => "another block has this sensor",
        Reason::RepeatedEnd(End::A) => "end a is named twice",
        Reason::RepeatedEnd(End::B) => "end b is named twice",
        Reason::NoDecoder => "no decoder of the roster has its switch",
        Reason::RepeatedDecoder => "another train has this decoder",
        Reason::OffTrack => "its front is not in its block",
        Reason::LongTrain => "longer than the track behind it",
        Reason::FastTrain => "too fast for the shortest block",
        Reason::NoMemory => "no memory",
        Reason::BadKey(_) | Reason::TooMany(_) | Reason::UnknownEnd { .. } => "",
    }
}

impl fmt::Display for Reason {
    fn fmt<W: fmt::Write>(&self, f: &mut fmt::Formatter<W>) -> fmt::Result {
        match *self {
            Reason::BadKey(key) => write_demand(key, f),
            Reason::TooMany(key) => write!(f, "there are too many {key}s"),
            Reason::UnknownEnd { key, .. } => write!(f, "{key}: no block has this end"),
            why => f.write_str(words_of(why)),
        }
    }
}

impl fmt::Display for Section {
    fn fmt<W: fmt::Write>(&self, f: &mut fmt::Formatter<W>) -> fmt::Result {
        let (kind, number) = match *self {
            Section::Whole => return f.write_str("the plan"),
            Section::Block(number) => (Key::Block, number),
            Section::Joint(number) => (Key::Joint, number),
            Section::Turnout(number) => (Key::Turnout, number),
            Section::Train(number) => (Key::Train, number),
        };
        write!(f, "{kind} {number}")
    }
}
