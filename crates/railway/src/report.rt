//! What the sensors report.
ghost use Rattle.std.specs.Prelude.{◌≡◌, ◌≤◌, ◌+◌, ◌++◌, length};
ghost use Rattle.railway.specs.Reports.{AreMarked, change_of, changes_in, changes_of, changes_through_of, full_in, is_occupied, occupies, same_blocks};

use crate::block::Block;
use crate::block_set::BlockSet;
use crate::plan::MAX_BLOCKS;
use crate::train::TrainState;
use arrayvec::ArrayVec;
use ln_ops::SensorReport;

/// The most reports of one time: each sensor may find its block occupied, and then free.
pub const MAX_REPORTS: usize = 2 * MAX_BLOCKS;

/// The reports of sensors of one time.
pub type Reports = ArrayVec<SensorReport, MAX_REPORTS>;

impl TrainState {
    /// Whether a part of the train is in a block.
    pub fn occupies(&self, block: usize) -> bool
        ensures occupies { result ≡ occupies block self.now }
    {
        block < MAX_BLOCKS && self.under.has(block)
    }

    /// Whether the train is in the same blocks as another.
    pub fn is_in_blocks_of(&self, other: &TrainState) -> bool
        ensures same { result ≡ same_blocks self.now other.now }
    {
        self.under.is(other.under)
    }
}

/// Whether a part of a train is in a block.
pub(crate) fn is_occupied(trains: &[TrainState], block: usize) -> bool
    ensures { result ≡ is_occupied trains.now block }
{
    trains.iter().any(|train| train.occupies(block))
}

/// Returns the blocks in which a part of one of the trains is.
pub(crate) fn occupied(trains: &[TrainState]) -> BlockSet
    ensures { AreMarked (is_occupied trains.now) result }
{
    let mut blocks = BlockSet::empty();
    for train in trains {
        blocks = blocks.union(train.under);
    }
    blocks
}

/// Returns what the sensors report that found these blocks occupied and now find those: first the
/// sensors whose block becomes occupied, then those whose block becomes free.
#[tactic(auto, using(crate::proofs::Occupying::no_changes, crate::proofs::Occupying::few_changes))]
pub(crate) fn changes(blocks: &[Block], was: BlockSet, is: BlockSet) -> Reports
    requires { length blocks.now ≤ 64 }
    ensures { result.items ≡ changes_of was is blocks.now }
{
    let mut reports = ArrayVec::new();
    if was.is(is) {
        return reports;
    }
    add_changes(&mut reports, true, blocks, was, is);
    add_changes(&mut reports, false, blocks, was, is);
    reports
}

/// Returns what the sensors report that found the first blocks occupied before, the second at a moment
/// of a time, and now find the third: first the sensors whose block was free before and then occupied,
/// then those whose block was occupied and now is free.
#[tactic(auto, using(crate::proofs::Occupying::none_through, crate::proofs::Occupying::few_changes))]
pub(crate) fn changes_through(
    blocks: &[Block],
    was: BlockSet,
    sensed: BlockSet,
    is: BlockSet,
) -> Reports
    requires { length blocks.now ≤ 64 }
    ensures { result.items ≡ changes_through_of was sensed is blocks.now }
{
    let mut reports = ArrayVec::new();
    if was.is(sensed) && sensed.is(is) {
        return reports;
    }
    add_changes(&mut reports, true, blocks, was, sensed);
    add_changes(&mut reports, false, blocks, sensed, is);
    reports
}

/// Adds the reports of those that change to one level.
fn add_changes(reports: &mut Reports, level: bool, blocks: &[Block], was: BlockSet, is: BlockSet)
    requires blocks { length blocks.now ≤ 64 }
    requires room { length reports.old.items ≤ 64 }
    ensures { reports.new.items ≡ reports.old.items ++ changes_in level was is 0 blocks.now }
{
    for (i, block) in blocks.iter().enumerate() {
        if let Some(report) = change_of(level, block.sensor, was.has(i), is.has(i)) {
            reports.push(report);
        }
    }
}

fn change_of(level: bool, sensor: Option<u16>, was: bool, is: bool) -> Option<SensorReport>
    ensures { result ≡ change_of level sensor was is }
{
    match sensor {
        Some(sensor) if is == level && was != level => Some(SensorReport {
            sensor,
            occupied: level,
        }),
        _ => None,
    }
}

/// Returns a full report of sensors that find these blocks occupied.
pub(crate) fn full(blocks: &[Block], is: BlockSet) -> Reports
    requires { length blocks.now ≤ 64 }
    ensures { result.items ≡ full_in is 0 blocks.now }
{
    let mut reports = ArrayVec::new();
    for (i, block) in blocks.iter().enumerate() {
        if let Some(sensor) = block.sensor {
            reports.push(SensorReport {
                sensor,
                occupied: is.has(i),
            });
        }
    }
    reports
}
