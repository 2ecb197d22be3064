//! Serving a connection byte by byte.
ghost use Rattle.std.specs.Prelude.{◌≡◌, ◌+◌, ◌*◌, ◌<◌, ◌≤◌, true, false, [], ◌∷◌, length, replicate, IfOk, IfErr, OnOk, IsErrOf, IsTrue};
ghost use Rattle.std.specs.Io.KnownBytes.{Appends, IsAtEnd};
ghost use Rattle.layout_core.specs.Played.{is_event};
ghost use Rattle.layout_core.specs.Counts.{HasRoom};
ghost use Rattle.layout_core.specs.Faults.{HasFaulted, PutsOut, ServesOrStops, ended_by, is_read, is_trace, is_write};
ghost use Rattle.layout_core.specs.Served.{HasServed, IsSendableAnswer, bytes_of_answer, input_of, line_of_answer, moment_of, replies_of_answer, served_events, turns_of_answer};
ghost use Rattle.layout_core.specs.World.{IsSameLayout};

use crate::device::Source;
use crate::event::Event;
use crate::laws;
use crate::world::World;
use crate::writing::put_line;
use input_text::{Sink, put_all};
use ln_ops::to_msg;
use show_text::{off_line, reply_line, track_line};
use station_core::Step;

/// The limits of a served connection.
#[derive(Clone, Copy)]
pub struct Limits {
    /// The most reads.
    pub reads: u32,
    /// The turns of the track after each byte.
    pub turns: u8,
}

/// What was done on a connection that was served to its end.
#[derive(Clone, Copy, PartialEq, Eq)]
pub struct Summary {
    /// The number of reads, including the last one, which found the end.
    pub reads: u32,
    /// The number of bytes read.
    pub bytes: u64,
    /// The number of replies written.
    pub replies: u64,
    /// The number of turns: `Limits::turns` for each byte.
    pub turns: u64,
}

/// Why serving a connection stopped before its end.
#[derive(Clone, Copy, Debug, PartialEq, Eq)]
pub enum ServeFault {
    /// A read failed.
    Read,
    /// A write of a reply failed or accepted no byte.
    Write,
    /// A write of a line of the trace failed or accepted no byte.
    Trace,
    /// All reads were made, and none found the end.
    TooManyReads,
}

/// The replies and turns so far.
#[derive(Clone, Copy)]
pub(crate) struct Counts {
    pub(crate) replies: u64,
    pub(crate) turns: u64,
}

impl Counts {
    /// Counts an answer.
    fn add(&mut self, answer: &Step)
        requires { HasRoom 1 self.old }
        ensures replies { self.new.replies ≡ self.old.replies + replies_of_answer answer.now }
        ensures turns { self.new.turns ≡ self.old.turns + turns_of_answer answer.now }
    {
        match answer {
            Step::Quiet => {}
            Step::Reply(_) => self.replies += 1,
            Step::Packet(_) | Step::Off => self.turns += 1,
        }
    }
}

/// Writes the bytes of an answer, and then its line of the trace; a turn has the number `turn`.
fn put_out<K: Sink, T: Sink>(
    answer: &Step,
    line: u8,
    turn: u64,
    sink: &mut K,
    trace: &mut T,
) -> Result<(), ServeFault>
    requires sendable { IsSendableAnswer answer.now }
    requires sink_works { K.failed sink.old ≡ false }
    requires trace_works { T.failed trace.old ≡ false }
    ensures written { OnOk result
        (Appends (K.held sink.old) (K.held sink.new) (bytes_of_answer answer.now)) }
    ensures traced { OnOk result
        (Appends (T.held trace.old) (T.held trace.new) (line_of_answer line turn answer.now)) }
    ensures faulted { IfErr result
        (λ fault. PutsOut fault line turn [] answer.now (K.held sink.old) (K.held sink.new)
        (T.held trace.old) (T.held trace.new)) }
    ensures sink_failed { K.failed sink.new ≡ ended_by is_write result }
    ensures trace_failed { T.failed trace.new ≡ ended_by is_trace result }
{
    let text = match answer {
        Step::Quiet => return Ok(()),
        Step::Reply(reply) => {
            let Ok(()) = put_all(sink, to_msg(reply).bytes()) else {
                return Err(ServeFault::Write);
            };
            reply_line(line, reply)
        }
        Step::Packet(packet) => track_line(turn, packet),
        Step::Off => off_line(turn),
    };
    put_line(trace, &text).or(Err(ServeFault::Trace))
}

/// Runs one event, and writes its answer.
fn serve_event<K: Sink, T: Sink>(
    world: &mut World,
    event: Event,
    line: u8,
    sink: &mut K,
    trace: &mut T,
    counts: &mut Counts,
) -> Result<(), ServeFault>
    requires call { IsTrue
        (is_event (length world.old.station.lines) (length world.old.nodes) event) }
    requires sink_works { K.failed sink.old ≡ false }
    requires trace_works { T.failed trace.old ≡ false }
    requires room { HasRoom 1 counts.old }
    ensures { ServesOrStops result line (event ∷ [])
        (moment_of world.old (K.held sink.old) (T.held trace.old) counts.old.replies
        counts.old.turns)
        (moment_of world.new (K.held sink.new) (T.held trace.new) counts.new.replies
        counts.new.turns)
        (K.failed sink.new) (T.failed trace.new) }
{
    let answer = world.step(event);
    put_out(&answer, line, counts.turns + 1, sink, trace)?;
    counts.add(&answer);
    Ok(())
}

/// Serves bytes, one after another, each followed by its turns.
fn serve_bytes<K: Sink, T: Sink>(
    world: &mut World,
    line: u8,
    bytes: &[u8],
    turns: u8,
    sink: &mut K,
    trace: &mut T,
    counts: &mut Counts,
) -> Result<(), ServeFault>
    requires line { line < length world.old.station.lines }
    requires sink_works { K.failed sink.old ≡ false }
    requires trace_works { T.failed trace.old ≡ false }
    requires room { HasRoom (256 * length bytes.now) counts.old }
    ensures { ServesOrStops result line (served_events line turns bytes.now)
        (moment_of world.old (K.held sink.old) (T.held trace.old) counts.old.replies
        counts.old.turns)
        (moment_of world.new (K.held sink.new) (T.held trace.new) counts.new.replies
        counts.new.turns)
        (K.failed sink.new) (T.failed trace.new) }
{
    for byte in bytes {
        serve_event(
            world,
            Event::Byte { line, byte: *byte },
            line,
            sink,
            trace,
            counts,
        )?;
        serve_turns(world, line, turns, sink, trace, counts)?;
    }
    Ok(())
}

/// Serves turns, which no decoder misses.
fn serve_turns<K: Sink, T: Sink>(
    world: &mut World,
    line: u8,
    turns: u8,
    sink: &mut K,
    trace: &mut T,
    counts: &mut Counts,
) -> Result<(), ServeFault>
    requires sink_works { K.failed sink.old ≡ false }
    requires trace_works { T.failed trace.old ≡ false }
    requires room { HasRoom turns counts.old }
    ensures { ServesOrStops result line (replicate turns (Event.Turn 0))
        (moment_of world.old (K.held sink.old) (T.held trace.old) counts.old.replies
        counts.old.turns)
        (moment_of world.new (K.held sink.new) (T.held trace.new) counts.new.replies
        counts.new.turns)
        (K.failed sink.new) (T.failed trace.new) }
{
    for _turn in 0..turns {
        serve_event(world, Event::Turn { missed: 0 }, line, sink, trace, counts)?;
    }
    Ok(())
}

/// Serves a connection on a line: the station receives each byte from the source, its reply is
/// written to the sink, and then `limits.turns` turns of the track are made, which no decoder
/// misses. Replies and turns are lines of the trace, where the turns are numbered from 1.
///
/// Reads up to 64 bytes at a time, and returns a summary when the source ends. The result depends
/// on the bytes only, not on how they are divided into reads.
///
/// # Errors
///
/// A device that fails ends it at once, as do `limits.reads` reads that do not find the end. All
/// bytes read are served, except those after a write that failed; what was written and traced
/// before remains.
pub fn serve<S: Source, K: Sink, T: Sink>(
    world: &mut World,
    line: u8,
    source: &mut S,
    sink: &mut K,
    trace: &mut T,
    limits: Limits,
) -> Result<Summary, ServeFault>
    requires line { line < length world.old.station.lines }
    requires open { S.ended source.old ≡ false }
    requires source_works { S.failed source.old ≡ false }
    requires sink_works { K.failed sink.old ≡ false }
    requires trace_works { T.failed trace.old ≡ false }
    // All bytes are read and served.
    ensures served { IfOk result (λ summary. HasServed line limits.turns summary
        (input_of (S.left source.old) (S.reads source.old))
        (input_of (S.left source.new) (S.reads source.new))
        (moment_of world.old (K.held sink.old) (T.held trace.old) 0 0)
        (moment_of world.new (K.held sink.new) (T.held trace.new) summary.replies summary.turns)) }
    ensures turns { IfOk result (λ summary. summary.turns ≡ limits.turns * summary.bytes) }
    ensures end { OnOk result ((S.ended source.new ≡ true) × IsAtEnd (S.left source.new)) }
    // Otherwise the bytes read are served, except those after a failed write. The headline holds in
    // both cases.
    ensures faulted { IfErr result (λ fault. HasFaulted fault line limits.turns
        (input_of (S.left source.old) (S.reads source.old))
        (input_of (S.left source.new) (S.reads source.new))
        (moment_of world.old (K.held sink.old) (T.held trace.old) 0 0)
        world.new (K.held sink.new) (T.held trace.new)) }
    ensures too_many { IsErrOf result ServeFault.TooManyReads
        → (S.reads source.new ≡ S.reads source.old + limits.reads) × (S.ended source.new ≡ false) }
    ensures most_reads { S.reads source.new ≤ S.reads source.old + limits.reads }
    // The other faults are returned exactly if a device failed.
    ensures source_failed { S.failed source.new ≡ ended_by is_read result }
    ensures sink_failed { K.failed sink.new ≡ ended_by is_write result }
    ensures trace_failed { T.failed trace.new ≡ ended_by is_trace result }
    ensures same { IsSameLayout world.old world.new }
{
    laws::headline();
    station_core::laws::calls_are_moves();
    world.station.always_legal();
    let mut counts = Counts {
        replies: 0,
        turns: 0,
    };
    let mut bytes = 0;
    let mut buf = [0; 64];
    for reads in 0..limits.reads {
        let Ok(n) = source.get(&mut buf) else {
            return Err(ServeFault::Read);
        };
        if n == 0 {
            return Ok(Summary {
                reads: reads + 1,
                bytes,
                replies: counts.replies,
                turns: counts.turns,
            });
        }
        serve_bytes(
            world,
            line,
            &buf[..n],
            limits.turns,
            sink,
            trace,
            &mut counts,
        )?;
        bytes += n as u64;
    }
    Err(ServeFault::TooManyReads)
}
