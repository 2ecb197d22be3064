//! Reading a plan.
ghost use Rattle.std.specs.Prelude.{◌≡◌, ◌≢◌, ◌≤◌, Ok, Err, Some, None, IfOk, IfErr, IsOk, MatchResult, length, map};
ghost use Rattle.toml.specs.View.{items_view, table_view};
ghost use Rattle.roster.specs.Entry.{name_of};
ghost use Rattle.roster.specs.Toml.{table_in};
ghost use Rattle.railway_plan.specs.declared.fault.Section.TheVariants.{Whole as WholeSection};
ghost use Rattle.railway_plan.specs.declared.fault.Reason.TheVariants.{NoMemory, NotToml};
ghost use Rattle.railway_plan.specs.Format.{blocks_in, in_section, items_at, named_apart, plan_in, plan_of, plan_with, version_in};
ghost use Rattle.railway_plan.specs.Entries.{block_entry, names_of, plan_entries};

use crate::bounds::VERSION;
use crate::fault::{PlanTextFault, Reason, Section};
use crate::key::{Key, PLAN_KEYS};
use crate::members::read_members;
use crate::names::block_index;
use crate::parts::block;
use crate::table::{array, number_at, value_at};
use arrayvec::ArrayVec;
use railway::{Block, MAX_BLOCKS, MAX_JOINTS, MAX_TRAINS, MAX_TURNOUTS, Plan};
use roster::{Roster, knows_only, read_toml};
use std::alloc::Global;
use toml::{Table, Value};

/// Reads a track plan, a text in TOML of any length, for the decoders of a roster.
///
/// ```toml
/// version = 1
///
/// [[block]]
/// name = "main"
/// length = 2400
/// sensor = 1
///
/// [[joint]]
/// ends = ["main.a", "main.b"]
///
/// [[train]]
/// decoder = "shunter"
/// block = "main"
/// front = 600
/// facing = "b"
/// length = 200
/// speed = 300
/// ```
///
/// Lengths are in millimetres, `speed` is that of the last speed step in millimetres a second. A
/// train may have `acceleration` and `braking`, in millimetres a second each second. An end is the
/// name of a block with `.a` or `.b`. A `[[turnout]]` has the number of its `switch`, 1 to 2040, and
/// the ends `common`, `closed` and `thrown`. A block may have points `a = [x, y]` and `b`, where its
/// ends are drawn.
///
/// # Errors
///
/// The first fault: of the whole, then of blocks, joints, turnouts and trains, each in order.
/// `NoMemory` if out of memory. Whether the parts fit together is checked by `Railway::new`.
#[tactic(auto, unfolding(crate::specs::Format::plan_in))]
pub fn read(alloc: Global, text: &[u8], roster: &Roster) -> Result<Plan, PlanTextFault>
    // The plan is what the text says.
    ensures ok { IfOk result
        (λ plan. plan_in (map name_of roster.now) text.now ≡ Ok (plan_entries plan)) }
    // The fault is the first of the text, unless memory ran out.
    ensures fault { IfErr result
        (λ fault. fault.why ≢ NoMemory → plan_in (map name_of roster.now) text.now ≡ Err fault) }
{
    match table_of(alloc, text) {
        Ok(table) => read_table(&table, roster),
        Err(why) => Err(of_whole(why)),
    }
}

/// Returns a fault of the whole.
fn of_whole(why: Reason) -> PlanTextFault
    ensures { result ≡ record { section = WholeSection; why = why; names = None } }
{
    fault(Section::Whole, why)
}

fn fault(section: Section, why: Reason) -> PlanTextFault
    ensures { result ≡ record { section = section; why = why; names = None } }
{
    PlanTextFault {
        section,
        why,
        names: None,
    }
}

/// Returns the table of a text, or `NotToml` or `NoMemory`.
fn table_of(alloc: Global, text: &[u8]) -> Result<Table, Reason>
    ensures ok { IfOk result (λ table. table_in text.now ≡ Some (table_view table)) }
    ensures refused { IfErr result
        (λ why. why ≢ NoMemory → (why ≡ NotToml) × (table_in text.now ≡ None)) }
{
    match read_toml(alloc, text) {
        Ok(table) => Ok(table),
        Err(roster::RosterFaultKind::NoMemory) => Err(Reason::NoMemory),
        Err(_) => Err(Reason::NotToml),
    }
}

/// Returns the plan of a text's table.
fn read_table(table: &Table, roster: &Roster) -> Result<Plan, PlanTextFault>
    ensures { MatchResult result
        (λ plan. plan_of (map name_of roster.now) (table_view table.now) ≡ Ok (plan_entries plan))
        (λ fault. plan_of (map name_of roster.now) (table_view table.now) ≡ Err fault) }
{
    read_version(table)?;
    let blocks = members(table, Key::Block, MAX_BLOCKS)?;
    let joints = members(table, Key::Joint, MAX_JOINTS)?;
    let turnouts = members(table, Key::Turnout, MAX_TURNOUTS)?;
    let trains = members(table, Key::Train, MAX_TRAINS)?;
    read_parts(roster, blocks, joints, turnouts, trains)
}

/// Checks the keys of the whole, and its version.
fn read_version(table: &Table) -> Result<(), PlanTextFault>
    ensures { MatchResult result
        (λ _. IsOk (in_section WholeSection (version_in (table_view table.now))))
        (λ fault. in_section WholeSection (version_in (table_view table.now)) ≡ Err fault) }
{
    if !knows_only(table, &PLAN_KEYS) {
        return Err(of_whole(Reason::UnknownKey));
    }
    match number_at(table, Key::Version, VERSION) {
        Ok(_) => Ok(()),
        Err(why) => Err(of_whole(why)),
    }
}

/// Returns the members of the array at a key of the whole, at most this many.
#[tactic(auto, using(crate::proofs::Lengths::items_len_view))]
fn members(table: &Table, key: Key, most: usize) -> Result<&[Value], PlanTextFault>
    ensures members { MatchResult result
        (λ values. in_section WholeSection (items_at most key (table_view table.now))
        ≡ Ok (items_view values.now))
        (λ fault. in_section WholeSection (items_at most key (table_view table.now))
        ≡ Err fault) }
    ensures few { IfOk result (λ values. length values.now ≤ most) }
{
    match array(key, value_at(table, key)) {
        Ok(values) if values.len() <= most => Ok(values),
        Ok(_) => Err(of_whole(Reason::TooMany(key))),
        Err(why) => Err(of_whole(why)),
    }
}

/// Returns the plan of the members of its arrays.
fn read_parts(
    roster: &Roster,
    blocks: &[Value],
    joints: &[Value],
    turnouts: &[Value],
    trains: &[Value],
) -> Result<Plan, PlanTextFault>
    requires blocks { length blocks.now ≤ 64 }
    requires joints { length joints.now ≤ 128 }
    requires turnouts { length turnouts.now ≤ 64 }
    requires trains { length trains.now ≤ 64 }
    ensures { MatchResult result
        (λ plan. plan_with (map name_of roster.now) (items_view blocks.now) (items_view joints.now)
        (items_view turnouts.now) (items_view trains.now) ≡ Ok (plan_entries plan))
        (λ fault. plan_with (map name_of roster.now) (items_view blocks.now)
        (items_view joints.now) (items_view turnouts.now) (items_view trains.now) ≡ Err fault) }
{
    let blocks = read_blocks(blocks)?;
    let names = blocks.as_slice();
    check_names(names)?;
    let joints = read_members(roster, names, joints)?;
    let turnouts = read_members(roster, names, turnouts)?;
    let trains = read_members(roster, names, trains)?;
    Ok(Plan {
        blocks,
        joints,
        turnouts,
        trains,
    })
}

fn read_blocks(values: &[Value]) -> Result<ArrayVec<Block, MAX_BLOCKS>, PlanTextFault>
    requires few { length values.now ≤ 64 }
    ensures { MatchResult result
        (λ parts. blocks_in (items_view values.now) ≡ Ok (map block_entry parts.items))
        (λ fault. blocks_in (items_view values.now) ≡ Err fault) }
{
    let mut parts = ArrayVec::new();
    for (i, value) in values.iter().enumerate() {
        match block(value) {
            Ok(part) => parts.push(part),
            Err(why) => return Err(fault(Section::Block(i + 1), why)),
        }
    }
    Ok(parts)
}

/// Checks that no block has the name of a later one.
fn check_names(blocks: &[Block]) -> Result<(), PlanTextFault>
    requires few { length blocks.now ≤ 64 }
    ensures { MatchResult result (λ _. IsOk (named_apart 1 (names_of blocks.now)))
        (λ fault. named_apart 1 (names_of blocks.now) ≡ Err fault) }
{
    for (i, block) in blocks.iter().enumerate() {
        if block_index(&blocks[i + 1..], block.name.as_str()).is_some() {
            return Err(fault(Section::Block(i + 1), Reason::RepeatedName));
        }
    }
    Ok(())
}
