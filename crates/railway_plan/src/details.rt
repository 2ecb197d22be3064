//! More about a fault of a plan than its kind and its part.
ghost use Rattle.std.specs.Prelude.{◌≡◌, option_map};
ghost use Rattle.std.specs.List.{list_all};
ghost use Rattle.railway_plan.specs.Details.{is_printable, is_shown, shown};

use crate::bounds::TRAIN_LENGTH;
use crate::fault::{PlanTextFault, Reason, Section, write_bounds};
use crate::key::Key;
use arrayvec::ArrayString;
use std::fmt;
use std::marker::Model;

/// The longest word of a plan that a fault shows, in bytes.
pub(crate) const LONGEST_WORD: usize = 48;

/// A word of a plan, which a fault shows.
pub(crate) type Word = ArrayString<LONGEST_WORD>;

/// More about the first fault of a plan than its kind and its part.
///
/// Contracts see it as these four.
#[derive(Drop)]
pub struct PlanDetails {
    /// The line at which the text is no TOML, from 1.
    pub(crate) line: Option<usize>,
    /// The name of the part: of a block its own, of a train its decoder's.
    pub(crate) name: Option<Word>,
    /// The key, the end or the block that is wrong.
    pub(crate) word: Option<Word>,
    /// The last part with the same name, sensor, decoder or end.
    pub(crate) other: Option<Section>,
}

impl Model for PlanDetails {
    ghost use Rattle.std.specs.Prelude.{option_map};
    ghost use Rattle.railway_plan.specs.Details.{PlanDetails};

    ghost Value = { PlanDetails };

    ghost view = { λ details. record {
      line = details.line;
      name = option_map (λ name. name.bytes) details.name;
      word = option_map (λ word. word.bytes) details.word;
      other = details.other;
    } };
}

/// The first fault of a plan, and more about it. It is shown as
/// `train 1 (express): no block has the name loop`.
#[derive(Drop)]
pub struct LocatedFault {
    pub fault: PlanTextFault,
    pub details: PlanDetails,
}

fn is_printable(byte: u8) -> bool
    ensures { result ≡ is_printable byte }
{
    matches!(byte, 32..=126)
}

fn are_printable(bytes: &[u8]) -> bool
    ensures { result ≡ list_all is_printable bytes.now }
{
    bytes.iter().all(|byte| is_printable(*byte))
}

fn is_shown(text: &str) -> bool
    ensures { result ≡ is_shown text.now }
{
    matches!(text.len(), 1..=LONGEST_WORD) && are_printable(text.as_bytes())
}

/// Returns a text as a word, if a fault shows such texts.
pub(crate) fn shown(text: Option<&str>) -> Option<Word>
    ensures { option_map (λ word. word.bytes) result
        ≡ shown (option_map (λ text. text.now) text.entry) }
{
    let text = text?;
    if !is_shown(text) {
        return None;
    }
    Word::from(text).ok()
}

/// Returns the key of the value that two parts have in common.
fn shared_key(why: Reason) -> Option<Key> {
    match why {
        Reason::RepeatedName => Some(Key::Name),
        Reason::RepeatedSensor => Some(Key::Sensor),
        Reason::RepeatedDecoder => Some(Key::Decoder),
        _ => None,
    }
}

/// Writes what is wrong with a part that has the same as another.
fn write_repeated<W: fmt::Write>(
    why: Reason,
    other: Section,
    f: &mut fmt::Formatter<W>,
) -> fmt::Result {
    match shared_key(why) {
        Some(key) => write!(f, "{other} has this {key} too"),
        None => write!(f, "{why}, last by {other}"),
    }
}

/// Writes what is wrong with a word of a part.
fn write_word<W: fmt::Write>(why: Reason, word: &Word, f: &mut fmt::Formatter<W>) -> fmt::Result {
    match why {
        Reason::UnknownKey => write!(f, "unknown key {word}"),
        Reason::UnknownEnd { key, .. } => write!(f, "{key}: no block has the end {word}"),
        Reason::UnknownBlock => write!(f, "no block has the name {word}"),
        _ => write!(f, "{why} ({word})"),
    }
}

/// Writes what is wrong with a train.
fn write_train<W: fmt::Write>(why: Reason, f: &mut fmt::Formatter<W>) -> fmt::Result {
    match why {
        // `block` is a key of the plan, and one of a train.
        Reason::BadKey(Key::Block) => f.write_str("block must be the name of a block"),
        // So is `length`.
        Reason::BadKey(Key::Length) => write_bounds(Key::Length, TRAIN_LENGTH, f),
        Reason::NoDecoder => f.write_str("its decoder is not of a locomotive"),
        _ => write!(f, "{why}"),
    }
}

impl LocatedFault {
    /// Writes where the fault is: in a line, or in a part, with its name.
    fn write_place<W: fmt::Write>(&self, f: &mut fmt::Formatter<W>) -> fmt::Result {
        let section = self.fault.section;
        match (self.details.line, &self.details.name) {
            (Some(line), _) => write!(f, "line {line}"),
            (None, Some(name)) => write!(f, "{section} ({name})"),
            (None, None) => write!(f, "{section}"),
        }
    }

    /// Writes what is wrong.
    fn write_reason<W: fmt::Write>(&self, f: &mut fmt::Formatter<W>) -> fmt::Result {
        let why = self.fault.why;
        match (&self.fault.names, &self.details.word) {
            (Some(names), _) => {
                let block = names.block.as_str();
                write!(f, "{why} (block {block})")
            }
            (None, Some(word)) => write_word(why, word, f),
            (None, None) => self.write_kind(f),
        }
    }

    /// Writes what is wrong if no word of the text is.
    fn write_kind<W: fmt::Write>(&self, f: &mut fmt::Formatter<W>) -> fmt::Result {
        let why = self.fault.why;
        match (self.details.other, self.fault.section) {
            (Some(other), _) => write_repeated(why, other, f),
            (None, Section::Train(_)) => write_train(why, f),
            (None, _) => write!(f, "{why}"),
        }
    }
}

impl fmt::Display for LocatedFault {
    fn fmt<W: fmt::Write>(&self, f: &mut fmt::Formatter<W>) -> fmt::Result {
        self.write_place(f)?;
        f.write_str(": ")?;
        self.write_reason(f)
    }
}
