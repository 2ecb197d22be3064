//! The lines of the blocks and the trains of a railway.
ghost use Rattle.std.specs.Prelude.{◌≡◌, ◌≤◌, ◌<◌, ◌+◌, ◌-◌, ◌∷◌, [], Some, length, option_copied, slice_get, true};
ghost use Rattle.railway.specs.Blocks.{block_name};
ghost use Rattle.railway.specs.Conflicts.{first_in};
ghost use Rattle.roster.specs.Decoders.{entries_of};
ghost use Rattle.bus_log.specs.LogQueues.{after_lines};
ghost use Rattle.bus_log.specs.ChangeLines.{all_blocks, all_changes, all_conflicts, all_trains, conflicts_in, meetings_in, pair_in};
ghost use Rattle.bus_log.specs.RailwayLines.{AllStay, are_in, change_lines, conflict_line, derailed_at, derailed_line, free_line, is_in, is_new, occupied_line, railway_lines, stays, train_name, trains_of};

use crate::change::Change;
use crate::log_queue::LogQueue;
use arrayvec::ArrayVec;
use railway::{Block, Conflict, MAX_TRAINS, Railway, TrainState, block_name};
use roster::{Roster, decoder_name};
use show_text::Line;

/// The trains of a railway, in the order of the plan.
pub(crate) type Trains = ArrayVec<TrainState, MAX_TRAINS>;

/// Returns the trains of a railway; none without one.
pub(crate) fn trains_of(railway: Option<&Railway>) -> Trains
    ensures { result.items ≡ trains_of (option_copied railway.entry) }
{
    let mut trains = Trains::new();
    keep_trains(&mut trains, railway);
    trains
}

/// Replaces trains by those of a railway; by none without one.
pub(crate) fn keep_trains(trains: &mut Trains, railway: Option<&Railway>)
    ensures { trains.new.items ≡ trains_of (option_copied railway.entry) }
{
    trains.clear();
    if let Some(railway) = railway {
        let _fits = trains.try_extend_from_slice(railway.trains());
    }
}

/// Prints what has changed on a railway since its trains were these, if there is a railway: blocks
/// that became occupied or free, trains that derailed, and conflicts.
pub(crate) fn print_railway(
    log: &mut LogQueue,
    roster: Option<&Roster>,
    before: &[TrainState],
    railway: Option<&Railway>,
)
    ensures { log.new
        ≡ after_lines log.old
        (railway_lines (entries_of roster.entry) before.now (option_copied railway.entry)) }
{
    if let Some(railway) = railway {
        let change = Change {
            roster,
            blocks: railway.blocks(),
            before,
            after: railway.trains(),
        };
        print_moved(log, &change);
    }
}

/// Prints what has changed. Nothing is looked up while each train stays where it is.
fn print_moved(log: &mut LogQueue, change: &Change<'_>)
    ensures { log.new ≡ after_lines log.old (all_changes change.now) }
{
    if all_stay(change.before, change.after) {
        return;
    }
    print_blocks(log, change);
    print_derailed(log, change);
    print_conflicts(log, change);
}

/// Returns whether each train is in the same blocks as before, and is derailed if it was.
fn all_stay(before: &[TrainState], after: &[TrainState]) -> bool
    ensures { result ≡ true → AllStay before.now after.now }
{
    if before.len() != after.len() {
        return false;
    }
    for i in 0..after.len() {
        if !stays(before, after, i) {
            return false;
        }
    }
    true
}

fn stays(before: &[TrainState], after: &[TrainState], i: usize) -> bool
    ensures { result ≡ stays (slice_get before.now i) (slice_get after.now i) }
{
    match (before.get(i), after.get(i)) {
        (None, None) => true,
        (Some(before), Some(after)) => train_stays(before, after),
        _ => false,
    }
}

/// Whether a train is in the same blocks as before, and is derailed if it was.
fn train_stays(before: &TrainState, after: &TrainState) -> bool
    ensures { result ≡ stays (Some before.now) (Some after.now) }
{
    before.is_in_blocks_of(after) && before.is_derailed() == after.is_derailed()
}

/// Prints each block that became occupied or free.
fn print_blocks(log: &mut LogQueue, change: &Change<'_>)
    ensures { log.new ≡ after_lines log.old (all_blocks change.now) }
{
    for i in 0..change.blocks.len() {
        let name = block_name(change.blocks, i);
        match (first_in(i, change.before), first_in(i, change.after)) {
            (None, Some(first)) => {
                let train = train_name(change.roster, change.after, first);
                log.print_line(&occupied_line(name, train));
            }
            (Some(_), None) => log.print_line(&free_line(name)),
            _ => {}
        }
    }
}

/// Returns the index of the first train in a block, if there is one.
fn first_in(block: usize, trains: &[TrainState]) -> Option<usize>
    ensures { result ≡ first_in block 0 trains.now }
{
    for (i, train) in trains.iter().enumerate() {
        if train.occupies(block) {
            return Some(i);
        }
    }
    None
}

/// Prints each train that derailed.
fn print_derailed(log: &mut LogQueue, change: &Change<'_>)
    ensures { log.new ≡ after_lines log.old (all_trains change.now) }
{
    for i in 0..change.after.len() {
        let places = (derailed_at(change.before, i), derailed_at(change.after, i));
        if let (None, Some(turnout)) = places {
            print_derailment(log, train_name(change.roster, change.after, i), turnout);
        }
    }
}

/// Prints `derailed`, a train, and the turnout that derailed it.
fn print_derailment(log: &mut LogQueue, train: &str, turnout: u16)
    requires { length train.now ≤ 16 }
    ensures { log.new ≡ after_lines log.old (derailed_line train.now turnout ∷ []) }
{
    let mut line = Line::new();
    line.push_str("derailed ");
    line.push_str(train);
    line.push_str(" at turnout ");
    log.print_count(line.as_str(), u64::from(turnout), "");
}

/// Prints the conflicts of each block: each two trains that are in it and were not both before.
fn print_conflicts(log: &mut LogQueue, change: &Change<'_>)
    ensures { log.new ≡ after_lines log.old (all_conflicts change.now) }
{
    for block in 0..change.blocks.len() {
        print_block_conflicts(log, change, block);
    }
}

/// Prints the conflicts of a block.
fn print_block_conflicts(log: &mut LogQueue, change: &Change<'_>, block: usize)
    ensures { log.new ≡ after_lines log.old (conflicts_in change.now block) }
{
    for first in 0..change.after.len() {
        print_meetings(log, change, block, first);
    }
}

/// Prints the conflicts of a train in a block with those behind it in the plan.
fn print_meetings(log: &mut LogQueue, change: &Change<'_>, block: usize, first: usize)
    requires { first < length change.now.after.now }
    ensures { log.new ≡ after_lines log.old (meetings_in change.now block first) }
{
    if !is_in(change.after, first, block) {
        return;
    }
    for second in first + 1..change.after.len() {
        let conflict = Conflict {
            block,
            first,
            second,
        };
        print_pair(log, change, conflict);
    }
}

/// Prints the conflict of two trains in a block, if both are in it now and were not before.
fn print_pair(log: &mut LogQueue, change: &Change<'_>, conflict: Conflict)
    ensures { log.new ≡ after_lines log.old (pair_in change.now conflict) }
{
    if is_new(change.before, change.after, conflict) {
        let line = conflict_line(change.roster, change.blocks, change.after, conflict);
        log.print_line(&line);
    }
}

/// Whether both trains of a conflict are in its block now, and were not before.
fn is_new(before: &[TrainState], after: &[TrainState], conflict: Conflict) -> bool
    ensures { result ≡ is_new before.now after.now conflict }
{
    are_in(after, conflict) && !are_in(before, conflict)
}

fn are_in(trains: &[TrainState], conflict: Conflict) -> bool
    ensures { result ≡ are_in trains.now conflict }
{
    is_in(trains, conflict.first, conflict.block) && is_in(trains, conflict.second, conflict.block)
}

fn is_in(trains: &[TrainState], i: usize, block: usize) -> bool
    ensures { result ≡ is_in block (slice_get trains.now i) }
{
    match trains.get(i) {
        Some(train) => train.occupies(block),
        None => false,
    }
}

/// Returns the turnout that derailed a train, if it is off the rails.
fn derailed_at(trains: &[TrainState], i: usize) -> Option<u16>
    ensures { result ≡ derailed_at (slice_get trains.now i) }
{
    match trains.get(i) {
        Some(train) => train.derailed_at,
        None => None,
    }
}

/// Returns the name of a train, which is that of its decoder.
fn train_name<'a>(roster: Option<&'a Roster>, trains: &[TrainState], i: usize) -> &'a str
    ensures name { result.now
        ≡ train_name (entries_of roster.entry) (slice_get trains.now i) }
    ensures most { length result.now ≤ 16 }
{
    match trains.get(i) {
        Some(train) => decoder_name(roster, usize::from(train.decoder)),
        None => "",
    }
}

fn occupied_line(block: &str, train: &str) -> Line
    requires block { length block.now ≤ 32 }
    requires train { length train.now ≤ 16 }
    ensures { result.bytes ≡ occupied_line block.now train.now }
{
    let mut line = Line::new();
    line.push_str("block ");
    line.push_str(block);
    line.push_str(" occupied (");
    line.push_str(train);
    line.push_str(")");
    line
}

fn free_line(block: &str) -> Line
    requires { length block.now ≤ 32 }
    ensures { result.bytes ≡ free_line block.now }
{
    let mut line = Line::new();
    line.push_str("block ");
    line.push_str(block);
    line.push_str(" free");
    line
}

fn conflict_line(
    roster: Option<&Roster>,
    blocks: &[Block],
    trains: &[TrainState],
    conflict: Conflict,
) -> Line
    ensures { result.bytes
        ≡ conflict_line (entries_of roster.entry) blocks.now trains.now conflict }
{
    let mut line = Line::new();
    line.push_str("conflict ");
    line.push_str(block_name(blocks, conflict.block));
    line.push_str(": ");
    line.push_str(train_name(roster, trains, conflict.first));
    line.push_str(", ");
    line.push_str(train_name(roster, trains, conflict.second));
    line
}
