//! A layout for programs in C, and in languages that call C.
//!
//! A program keeps a [`Layout`], zeroed at first. [`station_new`] makes the layout, [`station_run`]
//! runs a list of events, and [`station_free`] ends it. `station_opc_..` write the messages that layout programs send.
//! Each function is exported under its name;
//! `bindings/station.h` states the obligations of the caller.
#![tactic(auto)]

ghost use Rattle.std.specs.Prelude.{◌≡◌, ◌≢◌, ◌⊎◌, ◌==◌, ◌&&◌, nat_lt, Some, None, IfSome, true, false, length, map, option_map};
ghost use Rattle.std.specs.List.{list_all};
ghost use Rattle.station_core.specs.Seen.{known_of};
ghost use Rattle.layout_core.specs.Cycle.{RunsAfterNoise, RunsAsWanted};
ghost use Rattle.layout_core.specs.Played.{after_event, after_events, answer_to, answers_to};
ghost use Rattle.layout_core.specs.World.{AfterEvent, HaveHeard};
ghost use Rattle.roster.specs.Format.{roster_in};
ghost use Rattle.station_c.specs.Answer.{answered};
ghost use Rattle.station_c.specs.Decoder.{nodes_of as decoders_of};
ghost use Rattle.station_c.specs.Event.{event_of, is_one};
ghost use Rattle.station_c.specs.Fault.{IsFault, verdict};
ghost use Rattle.station_c.specs.Found.{Overwrites};
ghost use Rattle.station_c.specs.Layout.{IsFaultyNode, IsNew, IsStatus, IsUnchanged, lines_of, nodes_of, outputs_at, railway_of, refusal, running_at, specs_in, station_of};
ghost use Rattle.station_c.specs.Motion.{driven};

mod answer;
mod builders;
mod contents;
mod decoder;
mod driving;
mod event;
mod found;
mod kept_contents;
mod kind;
mod layout;
mod message;
mod plan;
mod raw;
mod run;
#[cfg(test)]
mod tests;
mod train;

pub use answer::Answer;
use answer::answered;
pub use builders::{
    station_message_of, station_opc_gpoff, station_opc_gpon, station_opc_idle,
    station_opc_loco_adr, station_opc_loco_dirf, station_opc_loco_snd, station_opc_loco_spd,
    station_opc_move_slots, station_opc_rq_sl_data, station_opc_slot_stat1, station_opc_sw_req,
    station_opc_wr_sl_data,
};
use contents::Contents;
pub use decoder::Decoder;
use decoder::read_all;
use decoder_node::NodeList;
pub use driving::Motion;
use driving::driven;
pub use event::EventFields;
use event::are_events;
use found::overwrite;
pub use layout::Layout;
use layout_core::{DecoderState, Event, World};
pub use message::Message;
pub use plan::{station_elapse, station_plan, station_sensor, station_train_of};
use railway::Railway;
use roster::RosterFaultKind;
use run::run;
use station_core::StationFault;
use std::alloc::Global;
pub use train::Train;

/// A layout was made.
const MADE: u8 = 0;

/// The lines are not 1 to 8.
const BAD_LINES: u8 = 1;

/// A decoder is invalid, there are more than 64, or the roster has a fault.
pub(crate) const BAD_DECODERS: u8 = 2;

/// Out of memory.
pub(crate) const NO_MEMORY: u8 = 3;

/// There is a layout already.
pub(crate) const ALREADY_MADE: u8 = 4;

/// The track plan has a fault.
pub(crate) const BAD_PLAN: u8 = 5;

/// Makes a layout with `lines` lines and these decoders; there must be none yet.
///
/// Returns 0 if it was made. Otherwise the layout is unchanged: 4 if there is one already, 2 if a
/// decoder is invalid or there are more than 64, 1 unless `lines` is 1 to 8, and 3 if out of
/// memory.
#[unsafe(no_mangle)]
pub extern "C" fn station_new(
    alloc: Global,
    layout: &mut Layout,
    lines: u8,
    decoders: &[Decoder],
) -> u8
    ensures status { IsStatus (refusal layout.old.made (decoders_of decoders.now) lines) result }
    ensures made { result ≡ 0
        → IfSome (decoders_of decoders.now) (λ specs. IsNew lines specs None layout.new) }
    ensures untouched { result ≢ 0 → layout.new ≡ layout.old }
{
    if layout.made {
        return ALREADY_MADE;
    }
    let Some(nodes) = read_all(decoders) else {
        return BAD_DECODERS;
    };
    make(alloc, layout, lines, nodes, None)
}

/// Makes a layout with `lines` lines and the decoders of a roster; there must be none yet.
///
/// Returns 0 if it was made. Otherwise the layout is unchanged: 4 if there is one already, 2 if the
/// roster has a fault, 1 unless `lines` is 1 to 8, and 3 if out of memory. If the roster has a
/// fault, `node` is set to the decoder at fault, counted from 1, or to 0 for the whole roster;
/// otherwise it is unchanged.
#[unsafe(no_mangle)]
pub extern "C" fn station_read(
    alloc: Global,
    layout: &mut Layout,
    lines: u8,
    text: &[u8],
    node: &mut u8,
) -> u8
    ensures status { (result ≡ refusal layout.old.made (specs_in (roster_in text.now)) lines)
        ⊎ ((layout.old.made ≡ false) × (result ≡ 3)) }
    ensures made { result ≡ 0
        → IfSome (specs_in (roster_in text.now)) (λ specs. IsNew lines specs None layout.new) }
    ensures untouched { result ≢ 0 → layout.new ≡ layout.old }
    ensures fault { result ≡ 2 → IsFaultyNode (roster_in text.now) node.new }
    ensures no_fault { result ≢ 2 → node.new ≡ node.old }
{
    if layout.made {
        return ALREADY_MADE;
    }
    match roster::read(alloc, text) {
        Ok(roster) => make(alloc, layout, lines, roster.nodes(), None),
        Err(fault) if fault.why == RosterFaultKind::NoMemory => NO_MEMORY,
        Err(fault) => {
            *node = fault.node;
            BAD_DECODERS
        }
    }
}

/// Finds the first fault of a roster, if it has one.
///
/// Returns 0 if it has none, 2 if it has one, and 3 if out of memory. `number` is set to the number
/// of the fault, as `station` prints it, and `node` to the decoder at fault, counted from 1, or to
/// 0 for the whole roster; both are unchanged unless there is a fault.
#[unsafe(no_mangle)]
pub extern "C" fn station_check(alloc: Global, text: &[u8], number: &mut u8, node: &mut u8) -> u8
    ensures status { (result ≡ verdict (roster_in text.now)) ⊎ (result ≡ 3) }
    ensures fault { result ≡ 2 → IsFault (roster_in text.now) number.new node.new }
    ensures no_fault { result ≢ 2 → (number.new ≡ number.old) × (node.new ≡ node.old) }
{
    match roster::read(alloc, text) {
        Ok(_) => MADE,
        Err(fault) if fault.why == RosterFaultKind::NoMemory => NO_MEMORY,
        Err(fault) => {
            *number = fault.why as u8;
            *node = fault.node;
            BAD_DECODERS
        }
    }
}

/// Makes a layout where there is none, or returns the status of the failure.
pub(crate) fn make(
    alloc: Global,
    layout: &mut Layout,
    lines: u8,
    nodes: NodeList,
    railway: Option<Railway>,
) -> u8
    requires none { layout.old.made ≡ false }
    ensures status { IsStatus (refusal false (Some nodes.items) lines) result }
    ensures made { result ≡ 0 → IsNew lines nodes.items railway layout.new }
    ensures untouched { result ≢ 0 → layout.new ≡ layout.old }
{
    match World::new(alloc, lines, nodes) {
        Ok(world) => match Box::new(alloc, Contents { world, railway }) {
            Ok(contents) => {
                layout.put(contents);
                MADE
            }
            Err(_) => NO_MEMORY,
        },
        Err(StationFault::BadLines) => BAD_LINES,
        Err(StationFault::NoMemory) => NO_MEMORY,
    }
}

/// Ends a layout, if there is one. Afterwards there is none.
#[unsafe(no_mangle)]
pub extern "C" fn station_free(alloc: Global, layout: &mut Layout)
    ensures { layout.new.made ≡ false }
{
    let _ = layout.take(alloc);
}

/// Passes a byte to a line. The answer is a reply, or quiet.
///
/// Returns false, and does nothing, if there is no layout or no such line.
#[unsafe(no_mangle)]
pub extern "C" fn station_byte(
    alloc: Global,
    layout: &mut Layout,
    line: u8,
    byte: u8,
    answer: &mut Answer,
) -> bool
    ensures done { result ≡ (layout.old.made && nat_lt line (lines_of layout.old)) }
    ensures made { layout.new.made ≡ layout.old.made }
    ensures station { result ≡ true
        → station_of layout.new ≡ after_event (station_of layout.old) (Event.Byte line byte) }
    ensures answer { result ≡ true
        → answer.new ≡ answered (answer_to (station_of layout.old) (Event.Byte line byte)) }
    ensures nodes { result ≡ true → nodes_of layout.new ≡ nodes_of layout.old }
    ensures railway { railway_of layout.new ≡ railway_of layout.old }
    ensures untouched { result ≡ false → IsUnchanged layout.old layout.new
        × (answer.new ≡ answer.old) }
{
    let Some(mut contents) = layout.take(alloc) else {
        return false;
    };
    let is_line = line < contents.world.station().lines();
    if is_line {
        let step = contents.world.step(Event::Byte { line, byte });
        *answer = answered(&step);
    }
    layout.put(contents);
    is_line
}

/// Runs a turn: the track has room for a packet, which decoder i misses if bit i of `missed` is
/// set. The answer is a packet, or off if the track has no power.
///
/// Returns false, and does nothing, if there is no layout.
#[unsafe(no_mangle)]
pub extern "C" fn station_turn(
    alloc: Global,
    layout: &mut Layout,
    missed: u64,
    answer: &mut Answer,
) -> bool
    ensures done { result ≡ layout.old.made }
    ensures made { layout.new.made ≡ layout.old.made }
    ensures station { result ≡ true
        → station_of layout.new ≡ after_event (station_of layout.old) (Event.Turn missed) }
    ensures answer { result ≡ true
        → answer.new ≡ answered (answer_to (station_of layout.old) (Event.Turn missed)) }
    ensures nodes { result ≡ true
        → AfterEvent (Event.Turn missed) (answer_to (station_of layout.old) (Event.Turn missed))
        (nodes_of layout.old) (nodes_of layout.new) }
    ensures railway { railway_of layout.new ≡ railway_of layout.old }
    ensures untouched { result ≡ false → IsUnchanged layout.old layout.new
        × (answer.new ≡ answer.old) }
{
    let Some(mut contents) = layout.take(alloc) else {
        return false;
    };
    let step = contents.world.step(Event::Turn { missed });
    *answer = answered(&step);
    layout.put(contents);
    true
}

/// Runs the events in order, and writes each answer at the same index. A list of events may be
/// divided into calls anywhere.
///
/// Returns false, and does nothing, if there is no layout, if the numbers of events and answers
/// differ, or if one of the events is not valid for this layout.
#[unsafe(no_mangle)]
pub extern "C" fn station_run(
    alloc: Global,
    layout: &mut Layout,
    events: &[EventFields],
    answers: &mut [Answer],
) -> bool
    ensures done { result
        ≡ (layout.old.made && (length events.now == length answers.old) && list_all
        (is_one (lines_of layout.old) (length (nodes_of layout.old))) events.now) }
    ensures made { layout.new.made ≡ layout.old.made }
    ensures station { result ≡ true
        → station_of layout.new ≡ after_events (station_of layout.old) (map event_of events.now) }
    ensures answers { result ≡ true
        → answers.new
        ≡ map answered (answers_to (station_of layout.old) (map event_of events.now)) }
    ensures nodes { result ≡ true
        → HaveHeard (station_of layout.old) (map event_of events.now) (nodes_of layout.old)
        (nodes_of layout.new) }
    // A locomotive that hears a full refresh cycle runs as its slot says.
    ensures headline { result ≡ true
        → RunsAsWanted (known_of (station_of layout.old)) (map event_of events.now)
        (nodes_of layout.old) (nodes_of layout.new) }
    // The same holds after any noise, given one more turn.
    ensures after_noise { result ≡ true
        → RunsAfterNoise (known_of (station_of layout.old)) (map event_of events.now)
        (nodes_of layout.old) (nodes_of layout.new) }
    ensures railway { railway_of layout.new ≡ railway_of layout.old }
    ensures untouched { result ≡ false → IsUnchanged layout.old layout.new
        × (answers.new ≡ answers.old) }
{
    let Some(mut contents) = layout.take(alloc) else {
        return false;
    };
    let runs = events.len() == answers.len()
        && are_events(
            events,
            contents.world.station().lines(),
            contents.world.nodes(),
        );
    if !runs {
        layout.put(contents);
        return false;
    }
    run(&mut contents.world, events, answers);
    layout.put(contents);
    true
}

/// Returns the state of decoder i. If there is no such decoder or no layout, both of its parts are
/// `None`.
fn decoder_state(alloc: Global, layout: &mut Layout, i: usize) -> DecoderState
    ensures running { result.running ≡ running_at layout.old i }
    ensures outputs { result.outputs ≡ outputs_at layout.old i }
    ensures untouched { IsUnchanged layout.old layout.new }
{
    let mut decoder_state = DecoderState {
        running: None,
        outputs: None,
    };
    if let Some(contents) = layout.take(alloc) {
        if i < contents.world.nodes() {
            decoder_state = contents.world.decoder_state(i);
        }
        layout.put(contents);
    }
    decoder_state
}

/// Writes how decoder i runs to `motion`.
///
/// Returns false, and writes nothing, for an accessory decoder, or if there is no such decoder or
/// no layout.
#[unsafe(no_mangle)]
pub extern "C" fn station_running(
    alloc: Global,
    layout: &mut Layout,
    i: usize,
    motion: &mut Motion,
) -> bool
    ensures driven { Overwrites (option_map driven (running_at layout.old i)) result motion.old
        motion.new }
    ensures untouched { IsUnchanged layout.old layout.new }
{
    overwrite(motion, decoder_state(alloc, layout, i).running.map(driven))
}

/// Writes the outputs of decoder i, bit j for output j, to `outputs`.
///
/// Returns false, and writes nothing, for a locomotive decoder, or if there is no such decoder or
/// no layout.
#[unsafe(no_mangle)]
pub extern "C" fn station_outputs(
    alloc: Global,
    layout: &mut Layout,
    i: usize,
    outputs: &mut u8,
) -> bool
    ensures driven { Overwrites (outputs_at layout.old i) result outputs.old outputs.new }
    ensures untouched { IsUnchanged layout.old layout.new }
{
    overwrite(outputs, decoder_state(alloc, layout, i).outputs)
}
