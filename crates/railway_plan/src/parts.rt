//! The tables of a plan's text.
ghost use Rattle.std.specs.Prelude.{◌≡◌, ◌≤◌, true, false, Ok, Err, MatchResult, length, map};
ghost use Rattle.toml.specs.View.{items_view, table_view, view};
ghost use Rattle.roster.specs.Entry.{name_of};
ghost use Rattle.roster.specs.Toml.{knows_only};
ghost use Rattle.railway_plan.specs.declared.fault.Reason.TheVariants.{UnknownKey};
ghost use Rattle.railway_plan.specs.Format.{block_at, block_in, decoder_at, end_at, end_of, facing_at, is_block_name, joint_in, joint_of, momentum_at, momentum_of, name_in, part_of, table_of, train_in, turnout_in};
ghost use Rattle.railway_plan.specs.Entries.{block_entry, names_of};

use crate::bounds::{FRONT, LENGTH, SPEED, SWITCH, TRAIN_LENGTH};
use crate::fault::Reason;
use crate::key::{BLOCK_KEYS, JOINT_KEYS, Key, TRAIN_KEYS, TURNOUT_KEYS};
use crate::names::{block_end, block_index, decoder_index};
use crate::table::{feedback, number_at, point, rate, sensor, text_at, time, value_at};
use railway::{
    Block, BlockEnd, End, Joint, LONGEST_NAME, Momentum, Name, Position, Train, Turnout,
};
use roster::{Roster, knows_only};
use text::are_name_bytes;
use toml::{Table, Value};

/// Returns the block that a table says.
pub(crate) fn block(value: &Value) -> Result<Block, Reason>
    ensures { MatchResult result
        (λ block. part_of block_in (view value.now) ≡ Ok (block_entry block))
        (λ why. part_of block_in (view value.now) ≡ Err why) }
{
    let table = table_of(value)?;
    check_keys(table, &BLOCK_KEYS)?;
    Ok(Block {
        name: name(table)?,
        length: number_at(table, Key::Length, LENGTH)?,
        sensor: sensor(value_at(table, Key::Sensor))?,
        point_a: point(Key::A, value_at(table, Key::A))?,
        point_b: point(Key::B, value_at(table, Key::B))?,
    })
}

/// Returns the table that a member of an array is.
fn table_of(value: &Value) -> Result<&Table, Reason>
    ensures { MatchResult result (λ table. table_of (view value.now) ≡ Ok (table_view table.now))
        (λ why. table_of (view value.now) ≡ Err why) }
{
    match value.as_table() {
        Some(table) => Ok(table),
        None => Err(Reason::NotTable),
    }
}

/// Returns `UnknownKey` if a table has another key than these.
fn check_keys(table: &Table, keys: &[&str]) -> Result<(), Reason>
    ensures { MatchResult result
        (λ _. knows_only (map (λ key. key.now) keys.now) (table_view table.now) ≡ true)
        (λ why. (knows_only (map (λ key. key.now) keys.now) (table_view table.now) ≡ false)
        × (why ≡ UnknownKey)) }
{
    if knows_only(table, keys) {
        Ok(())
    } else {
        Err(Reason::UnknownKey)
    }
}

/// Returns the name of a block.
fn name(table: &Table) -> Result<Name, Reason>
    ensures { MatchResult result (λ name. name_in (table_view table.now) ≡ Ok name.bytes)
        (λ why. name_in (table_view table.now) ≡ Err why) }
{
    let text = text_at(table, Key::Name)?;
    if !is_block_name(text) {
        return Err(Reason::BadKey(Key::Name));
    }
    match Name::from(text) {
        Ok(name) => Ok(name),
        Err(_) => Err(Reason::BadKey(Key::Name)),
    }
}

fn is_block_name(name: &str) -> bool
    ensures { result ≡ is_block_name name.now }
{
    matches!(name.len(), 1..=LONGEST_NAME) && are_name_bytes(name.as_bytes())
}

/// Returns the joint that a table says, between ends of these blocks.
pub(crate) fn joint(blocks: &[Block], value: &Value) -> Result<Joint, Reason>
    requires { length blocks.now ≤ 64 }
    ensures { result ≡ part_of (joint_in (names_of blocks.now)) (view value.now) }
{
    let table = table_of(value)?;
    check_keys(table, &JOINT_KEYS)?;
    match value_at(table, Key::Ends) {
        Some(value) => match value.as_array() {
            Some(ends) => joint_of(blocks, ends.as_slice()),
            None => Err(Reason::BadKey(Key::Ends)),
        },
        None => Err(Reason::BadKey(Key::Ends)),
    }
}

fn joint_of(blocks: &[Block], ends: &[Value]) -> Result<Joint, Reason>
    requires { length blocks.now ≤ 64 }
    ensures { result ≡ joint_of (names_of blocks.now) (items_view ends.now) }
{
    match ends {
        [one, two] => match (one.as_str(), two.as_str()) {
            (Some(one), Some(two)) => Ok(Joint {
                one: end_of(Key::Ends, 0, blocks, one)?,
                two: end_of(Key::Ends, 1, blocks, two)?,
            }),
            _ => Err(Reason::BadKey(Key::Ends)),
        },
        _ => Err(Reason::BadKey(Key::Ends)),
    }
}

/// Returns the end at a key and an index there, which is spelled so.
fn end_of(key: Key, index: usize, blocks: &[Block], text: &str) -> Result<BlockEnd, Reason>
    requires { length blocks.now ≤ 64 }
    ensures { result ≡ end_of key index (names_of blocks.now) text.now }
{
    match block_end(blocks, text) {
        Some(end) => Ok(end),
        None => Err(Reason::UnknownEnd { key, index }),
    }
}

/// Returns the end at a key.
fn end_at(blocks: &[Block], table: &Table, key: Key) -> Result<BlockEnd, Reason>
    requires { length blocks.now ≤ 64 }
    ensures { result ≡ end_at (names_of blocks.now) key (table_view table.now) }
{
    end_of(key, 0, blocks, text_at(table, key)?)
}

/// Returns the turnout that a table says, between ends of these blocks.
pub(crate) fn turnout(blocks: &[Block], value: &Value) -> Result<Turnout, Reason>
    requires { length blocks.now ≤ 64 }
    ensures { result ≡ part_of (turnout_in (names_of blocks.now)) (view value.now) }
{
    let table = table_of(value)?;
    check_keys(table, &TURNOUT_KEYS)?;
    Ok(Turnout {
        switch: number_at(table, Key::Switch, SWITCH)? as u16,
        common: end_at(blocks, table, Key::Common)?,
        closed: end_at(blocks, table, Key::Closed)?,
        thrown: end_at(blocks, table, Key::Thrown)?,
        time: time(value_at(table, Key::Time))?,
        has_feedback: feedback(value_at(table, Key::Feedback))?,
    })
}

/// Returns the train that a table says, its front in one of these blocks.
pub(crate) fn train(roster: &Roster, blocks: &[Block], value: &Value) -> Result<Train, Reason>
    requires { length blocks.now ≤ 64 }
    ensures { result
        ≡ part_of (train_in (map name_of roster.now) (names_of blocks.now)) (view value.now) }
{
    let table = table_of(value)?;
    check_keys(table, &TRAIN_KEYS)?;
    let decoder = decoder_at(roster, table)?;
    let position = Position {
        block: block_at(blocks, table)?,
        at: number_at(table, Key::Front, FRONT)?,
        facing: facing_at(table)?,
    };
    Ok(Train {
        decoder,
        length: number_at(table, Key::Length, TRAIN_LENGTH)? as u16,
        top: number_at(table, Key::Speed, SPEED)? as u16,
        momentum: momentum_at(table)?,
        position,
    })
}

/// Returns how fast a train gathers speed and brakes, if the table says it.
fn momentum_at(table: &Table) -> Result<Option<Momentum>, Reason>
    ensures { result ≡ momentum_at (table_view table.now) }
{
    let acceleration = rate(Key::Acceleration, value_at(table, Key::Acceleration))?;
    let braking = rate(Key::Braking, value_at(table, Key::Braking))?;
    momentum_of(acceleration, braking)
}

/// Returns the momentum of two rates, both or none.
fn momentum_of(acceleration: Option<u16>, braking: Option<u16>) -> Result<Option<Momentum>, Reason>
    ensures { result ≡ momentum_of acceleration braking }
{
    match (acceleration, braking) {
        (None, None) => Ok(None),
        (Some(acceleration), Some(braking)) => Ok(Some(Momentum {
            acceleration,
            braking,
        })),
        (None, Some(_)) => Err(Reason::BadKey(Key::Acceleration)),
        (Some(_), None) => Err(Reason::BadKey(Key::Braking)),
    }
}

fn decoder_at(roster: &Roster, table: &Table) -> Result<u8, Reason>
    ensures { result ≡ decoder_at (map name_of roster.now) (table_view table.now) }
{
    match decoder_index(roster, text_at(table, Key::Decoder)?) {
        Some(index) => Ok(index),
        None => Err(Reason::UnknownDecoder),
    }
}

fn block_at(blocks: &[Block], table: &Table) -> Result<u8, Reason>
    requires { length blocks.now ≤ 64 }
    ensures { result ≡ block_at (names_of blocks.now) (table_view table.now) }
{
    match block_index(blocks, text_at(table, Key::Block)?) {
        Some(index) => Ok(index),
        None => Err(Reason::UnknownBlock),
    }
}

fn facing_at(table: &Table) -> Result<End, Reason>
    ensures { result ≡ facing_at (table_view table.now) }
{
    match text_at(table, Key::Facing)? {
        "a" => Ok(End::A),
        "b" => Ok(End::B),
        _ => Err(Reason::BadKey(Key::Facing)),
    }
}
