//! Connections over readers and writers that fail, stop or accept little at a time.

ghost use Rattle.std.specs.Prelude.{◌≡◌, ◌≤◌, IfOk, length};

use decoder_node::NodeList;
use layout_core::{Broken, Limits, Port, ServeFault, Sink, Source, Summary, World, serve};
use ln_ops::{Row, State};
use std::alloc::Global;
use std::io;
use std::io::{Read, Write};
use std::process::Abort;
use std::test::Fail;

/// Ten bytes: slot 1 for address 3, power on, slot 1 in use.
const TEN: &[u8] = &[0xBF, 0x00, 0x03, 0x43, 0x83, 0x7C, 0xBA, 0x01, 0x01, 0x45];

const REPLIES: &[u8] = &[
    0xE7, 0x0E, 0x01, 0x23, 0x03, 0x00, 0x00, 0x06, 0x00, 0x00, 0x00, 0x00, 0x00, 0x31, //
    0xE7, 0x0E, 0x01, 0x33, 0x03, 0x00, 0x00, 0x07, 0x00, 0x00, 0x00, 0x00, 0x00, 0x20,
];

/// The lines of the ten bytes with a turn after each.
const LINES: &[u8] = b"track 1 off\n\
track 2 off\n\
track 3 off\n\
reply 0 E7 0E 01 23 03 00 00 06 00 00 00 00 00 31\n\
track 4 off\n\
track 5 off\n\
track 6 FF 00 FF\n\
track 7 FF 00 FF\n\
track 8 FF 00 FF\n\
track 9 FF 00 FF\n\
reply 0 E7 0E 01 33 03 00 00 07 00 00 00 00 00 20\n\
track 10 03 3F 80 BC\n";

/// How many bytes of the replies and of the lines are written after this many of the ten bytes.
const DONE: [(usize, usize); 11] = [
    (0, 0),
    (0, 12),
    (0, 24),
    (0, 36),
    (14, 98),
    (14, 110),
    (14, 127),
    (14, 144),
    (14, 161),
    (14, 178),
    (28, 249),
];

/// A reader whose piece ends at each byte with a set bit, and whose call number `bad` fails,
/// counted from 1.
#[derive(Drop)]
struct Pieces<'a> {
    bytes: &'a [u8],
    ends: u16,
    bad: u32,
}

impl Read for Pieces<'_> {
    fn read(&mut self, buf: &mut [u8]) -> io::Result<usize> {
        self.bad = self.bad.wrapping_sub(1);
        if self.bad == 0 {
            return Err(io::Error::from(io::ErrorKind::Other));
        }
        let piece = self.ends.trailing_zeros() as usize + 1;
        self.ends = if piece < 16 { self.ends >> piece } else { 0 };
        let most = if piece < buf.len() { piece } else { buf.len() };
        self.bytes.read(&mut buf[..most])
    }
}

/// A writer that accepts a limited number of bytes at a time, while it has room. Then it fails, or
/// accepts none; so does its call number `bad`, counted from 1.
#[derive(Drop)]
struct Room {
    head_length: Vec<u8>,
    each: usize,
    room: usize,
    bad: u32,
    fails: bool,
}

impl Write for Room {
    fn write(&mut self, buf: &[u8]) -> io::Result<usize> {
        self.bad = self.bad.wrapping_sub(1);
        if self.bad == 0 || self.room == 0 {
            return if self.fails {
                Err(io::Error::from(io::ErrorKind::Other))
            } else {
                Ok(0)
            };
        }
        let most = if self.each < self.room {
            self.each
        } else {
            self.room
        };
        let count = if most < buf.len() { most } else { buf.len() };
        self.room -= count;
        for byte in &buf[..count] {
            self.head_length.push(*byte)?;
        }
        Ok(count)
    }

    fn flush(&mut self) -> io::Result<()> {
        Ok(())
    }
}

/// The devices of a connection: where its pieces end, which read fails, how many reads are allowed,
/// how much each writer accepts at a time and in all, which write fails, and whether it is an error
/// or accepts no byte.
#[derive(Clone, Copy)]
struct Devices {
    ends: u16,
    bad: u32,
    reads: u32,
    each: usize,
    sink: usize,
    trace: usize,
    bad_reply: u32,
    bad_line: u32,
    fails: bool,
}

impl Devices {
    /// A writer with this much room, whose call of this number fails.
    fn writer(&self, alloc: Global, room: usize, bad: u32) -> Room {
        Room {
            head_length: Vec::new(alloc),
            each: self.each,
            room,
            bad,
            fails: self.fails,
        }
    }
}

/// The ten bytes in one read, and room for all.
const SOUND: Devices = Devices {
    ends: 0,
    bad: 0,
    reads: 100,
    each: 1000,
    sink: 1000,
    trace: 1000,
    bad_reply: 0,
    bad_line: 0,
    fails: true,
};

/// The summary of the ten bytes in one read.
const WHOLE: Summary = Summary {
    reads: 2,
    bytes: 10,
    replies: 2,
    turns: 10,
};

/// How a connection ended, how many bytes were left unread, the bytes written and traced, and the
/// layout.
#[derive(Drop)]
struct Served {
    outcome: Result<Summary, ServeFault>,
    unread: usize,
    written: Vec<u8>,
    traced: Vec<u8>,
    world: World,
}

fn serve_ten(alloc: Global, devices: &Devices) -> Result<Served, Fail>
    ensures { IfOk result (λ served. length served.world.station.lines ≡ 1) }
{
    let world = World::new(alloc, 1, NodeList::new())?;
    Ok(serve_ten_on(alloc, world, devices))
}

/// Serves the ten bytes on this layout.
fn serve_ten_on(alloc: Global, mut world: World, devices: &Devices) -> Served
    requires { length world.station.lines ≡ 1 }
    ensures { length result.world.station.lines ≡ 1 }
{
    let mut pieces = Pieces {
        bytes: TEN,
        ends: devices.ends,
        bad: devices.bad,
    };
    let mut written = devices.writer(alloc, devices.sink, devices.bad_reply);
    let mut traced = devices.writer(alloc, devices.trace, devices.bad_line);
    let mut source = Port::new(&mut pieces);
    let mut sink = Port::new(&mut written);
    let mut trace = Port::new(&mut traced);
    let limits = Limits {
        reads: devices.reads,
        turns: 1,
    };
    let outcome = serve(&mut world, 0, &mut source, &mut sink, &mut trace, limits);
    let Room {
        head_length: written,
        ..
    } = written;
    let Room {
        head_length: traced,
        ..
    } = traced;
    Served {
        outcome,
        unread: pieces.bytes.len(),
        written,
        traced,
        world,
    }
}

/// Serves these bytes on the last line of a new layout of this number of lines.
fn serve_last(alloc: Global, lines: u8, bytes: &[u8], limits: Limits) -> Result<Served, Fail>
    requires { 1 ≤ lines }
{
    let mut world = World::new(alloc, lines, NodeList::new())?;
    let mut unread = bytes;
    let mut written = Vec::new(alloc);
    let mut traced = Vec::new(alloc);
    let mut source = Port::new(&mut unread);
    let mut sink = Port::new(&mut written);
    let mut trace = Port::new(&mut traced);
    let outcome = serve(
        &mut world,
        lines - 1,
        &mut source,
        &mut sink,
        &mut trace,
        limits,
    );
    Ok(Served {
        outcome,
        unread: unread.len(),
        written,
        traced,
        world,
    })
}

/// Whether it ended so, with this much of the replies and of the lines.
fn ended(served: &Served, outcome: Result<Summary, ServeFault>, done: (usize, usize)) -> bool {
    served.outcome == outcome
        && served.written.len() == done.0
        && REPLIES.starts_with(served.written.as_slice())
        && served.traced.len() == done.1
        && LINES.starts_with(served.traced.as_slice())
}

/// Whether the ten bytes over these devices end so.
fn is_served(
    alloc: Global,
    devices: &Devices,
    outcome: Result<Summary, ServeFault>,
    done: (usize, usize),
) -> Result<bool, Fail> {
    Ok(ended(&serve_ten(alloc, devices)?, outcome, done))
}

/// Whether they end in this fault, and slot 1 is in use afterwards.
fn ends_in_use(
    alloc: Global,
    devices: &Devices,
    fault: ServeFault,
    done: (usize, usize),
) -> Result<bool, Fail> {
    let served = serve_ten(alloc, devices)?;
    let in_use = served.world.station().row(1).state == State::InUse;
    Ok(in_use && ended(&served, Err(fault), done))
}

/// The summary of a connection without replies.
fn no_replies(reads: u32, bytes: u64, turns: u64) -> Summary {
    Summary {
        reads,
        bytes,
        replies: 0,
        turns,
    }
}

#[test]
fn power_comes_on(rt: HostRuntime) -> Result<(), Fail> {
    let limits = Limits { reads: 2, turns: 1 };
    let served = serve_last(rt.alloc(), 1, &[0x83, 0x7C], limits)?;
    assert!(rt; served.outcome == Ok(no_replies(2, 2, 2)));
    assert!(rt; served.written.is_empty());
    assert!(rt; served.traced.as_slice() == b"track 1 off\ntrack 2 FF 00 FF\n".as_slice());
    Ok(())
}

#[test]
fn a_read_asks_for_64_bytes(rt: HostRuntime) -> Result<(), Fail> {
    // Two such reads, one of the byte after them, and the one that finds the end.
    let limits = Limits { reads: 4, turns: 0 };
    let served = serve_last(rt.alloc(), 1, &[0u8; 129], limits)?;
    assert!(rt; served.outcome == Ok(no_replies(4, 129, 0)));
    Ok(())
}

/// How many bytes of the replies are written when the trace has this length.
fn replied_before(traced: usize) -> usize {
    match traced {
        0..36 => 0,
        36..178 => 14,
        _ => 28,
    }
}

/// Whether the first message of the ten bytes, on line 1 of two, is served and traced so, with this
/// number of turns after each byte.
fn turns_after(alloc: Global, turns: u8, lines: &[u8]) -> Result<bool, Fail> {
    let served = serve_last(alloc, 2, &TEN[..4], Limits { reads: 2, turns })?;
    let summary = Summary {
        reads: 2,
        bytes: 4,
        replies: 1,
        turns: 4 * u64::from(turns),
    };
    Ok(
        served.outcome == Ok(summary)
            && served.written.as_slice() == &REPLIES[..14]
            && served.traced.as_slice() == lines,
    )
}

const NO_TURNS: &[u8] = b"reply 1 E7 0E 01 23 03 00 00 06 00 00 00 00 00 31\n";

const TWO_TURNS: &[u8] =
    b"track 1 off\ntrack 2 off\ntrack 3 off\ntrack 4 off\ntrack 5 off\ntrack 6 off\n\
reply 1 E7 0E 01 23 03 00 00 06 00 00 00 00 00 31\ntrack 7 off\ntrack 8 off\n";

#[test]
fn turns_come_after_each_byte(rt: HostRuntime) -> Result<(), Fail> {
    assert!(rt; turns_after(rt.alloc(), 0, NO_TURNS)?);
    assert!(rt; turns_after(rt.alloc(), 2, TWO_TURNS)?);
    Ok(())
}

#[test]
fn no_cut_of_the_bytes_matters(rt: HostRuntime) -> Result<(), Fail> {
    for ends in 0..512u16 {
        let devices = Devices { ends, ..SOUND };
        let summary = Summary {
            reads: ends.count_ones() + 2,
            ..WHOLE
        };
        assert!(rt; is_served(rt.alloc(), &devices, Ok(summary), DONE[10])?);
    }
    Ok(())
}

#[test]
fn a_read_that_fails_ends_it(rt: HostRuntime) -> Result<(), Fail> {
    let second = Devices { bad: 2, ..SOUND };
    assert!(rt; ends_in_use(rt.alloc(), &second, ServeFault::Read, DONE[10])?);
    for (bytes, done) in DONE.iter().enumerate() {
        let devices = Devices {
            ends: 0x3FF,
            bad: bytes as u32 + 1,
            ..SOUND
        };
        assert!(rt; is_served(rt.alloc(), &devices, Err(ServeFault::Read), *done)?);
    }
    Ok(())
}

/// Whether this number of reads of one byte is too few, with this much done, and the other bytes
/// left.
fn are_too_few(alloc: Global, reads: u32, done: (usize, usize)) -> Result<bool, Fail> {
    let devices = Devices {
        ends: 0x3FF,
        reads,
        ..SOUND
    };
    let served = serve_ten(alloc, &devices)?;
    let left = 10u32.saturating_sub(reads);
    Ok(served.unread == left as usize && ended(&served, Err(ServeFault::TooManyReads), done))
}

#[test]
fn a_connection_may_be_too_long(rt: HostRuntime) -> Result<(), Fail> {
    let one = Devices { reads: 1, ..SOUND };
    assert!(rt; ends_in_use(rt.alloc(), &one, ServeFault::TooManyReads, DONE[10])?);
    for (reads, done) in DONE.iter().enumerate() {
        assert!(rt; are_too_few(rt.alloc(), reads as u32, *done)?);
    }
    Ok(())
}

/// All that a row holds: two rows are the same if this is.
fn fields(row: Row) -> (State, u16, [u8; 8]) {
    let bytes = [
        row.kind, row.spd, row.dirf, row.snd, row.more, row.ss2, row.id1, row.id2,
    ];
    (row.state, row.address, bytes)
}

/// Whether each slot reads as in a new layout.
fn reads_as_new(alloc: Global, world: &World) -> Result<bool, Fail> {
    let new = World::new(alloc, 1, NodeList::new())?;
    let mut same = true;
    for slot in 1..=119 {
        same = same && fields(world.station().row(slot)) == fields(new.station().row(slot));
    }
    Ok(same)
}

#[test]
fn no_reads_change_nothing(rt: HostRuntime) -> Result<(), Fail> {
    let none = Devices { reads: 0, ..SOUND };
    let served = serve_ten(rt.alloc(), &none)?;
    assert!(rt; served.unread == 10);
    assert!(rt; ended(&served, Err(ServeFault::TooManyReads), (0, 0)));
    assert!(rt; reads_as_new(rt.alloc(), &served.world)?);
    let served = serve_ten_on(rt.alloc(), served.world, &SOUND);
    assert!(rt; ended(&served, Ok(WHOLE), DONE[10]));
    Ok(())
}

#[test]
fn a_write_that_fails_ends_it(rt: HostRuntime) -> Result<(), Fail> {
    let twenty = Devices { sink: 20, ..SOUND };
    assert!(rt; ends_in_use(rt.alloc(), &twenty, ServeFault::Write, (20, 178))?);
    for (each, fails) in [(1, true), (1, false), (5, true), (5, false)] {
        for sink in 0..28 {
            let devices = Devices {
                each,
                sink,
                fails,
                ..SOUND
            };
            let lines = if sink < 14 { 36 } else { 178 };
            assert!(rt; is_served(rt.alloc(), &devices, Err(ServeFault::Write), (sink, lines))?);
        }
    }
    Ok(())
}

/// Whether the rest of the first message has its reply, if only its first byte was received.
fn goes_on(alloc: Global, mut world: World) -> Result<bool, Fail>
    requires { length world.station.lines ≡ 1 }
{
    let more: &[u8] = &TEN[1..4];
    let mut source = Port::new(more);
    let mut written = Vec::new(alloc);
    let mut sink = Port::new(&mut written);
    let mut trace = Port::new(Vec::new(alloc));
    let limits = Limits { reads: 9, turns: 0 };
    let outcome = serve(&mut world, 0, &mut source, &mut sink, &mut trace, limits);
    Ok(outcome.is_ok() && written.as_slice() == &REPLIES[..14])
}

#[test]
fn a_layout_outlives_its_trace(rt: HostRuntime) -> Result<(), Fail> {
    let served = serve_ten(rt.alloc(), &Devices { trace: 0, ..SOUND })?;
    assert!(rt; ended(&served, Err(ServeFault::Trace), (0, 0)));
    assert!(rt; goes_on(rt.alloc(), served.world)?);
    Ok(())
}

#[test]
fn a_trace_that_fails_ends_it(rt: HostRuntime) -> Result<(), Fail> {
    for (each, fails) in [(1, true), (7, false)] {
        for trace in 0..LINES.len() {
            let devices = Devices {
                each,
                trace,
                fails,
                ..SOUND
            };
            let done = (replied_before(trace), trace);
            assert!(rt; is_served(rt.alloc(), &devices, Err(ServeFault::Trace), done)?);
        }
    }
    Ok(())
}

/// The ten bytes are served, and this much is written.
fn ends_well(alloc: Global, devices: &Devices) -> Result<bool, Fail> {
    Ok(ended(&serve_ten(alloc, devices)?, Ok(WHOLE), DONE[10]))
}

/// Each write of a reply fails once, and then none does: after a number of bytes, accepted a number
/// at a time.
#[test]
fn each_write_may_fail_alone(rt: HostRuntime) -> Result<(), Fail> {
    for (each, fails) in [(1, true), (1, false), (14, true), (14, false)] {
        let calls = 28 / each;
        for before in 0..calls {
            let devices = Devices {
                each,
                bad_reply: before as u32 + 1,
                fails,
                ..SOUND
            };
            let sink = before * each;
            let lines = if sink < 14 { 36 } else { 178 };
            assert!(rt; is_served(rt.alloc(), &devices, Err(ServeFault::Write), (sink, lines))?);
        }
        let none = Devices {
            each,
            bad_reply: calls as u32 + 1,
            fails,
            ..SOUND
        };
        assert!(rt; ends_well(rt.alloc(), &none)?);
    }
    Ok(())
}

/// How many bytes of the lines are traced before each call, if the trace accepts all bytes: a line
/// is written by one call, and its line feed by another.
fn starts_of_calls(alloc: Global) -> Result<Vec<usize>, Fail> {
    let mut starts = Vec::new(alloc);
    let mut at_start = true;
    for (at, byte) in LINES.iter().enumerate() {
        if at_start || *byte == b'\n' {
            starts.push(at)?;
        }
        at_start = *byte == b'\n';
    }
    Ok(starts)
}

/// Each call of a trace that begins so fails once, and then none does.
fn each_call_may_fail(
    rt: &impl Abort,
    alloc: Global,
    each: usize,
    fails: bool,
    starts: &[usize],
) -> Result<(), Fail> {
    let mut call = 1u32;
    for traced in starts {
        let devices = Devices {
            each,
            bad_line: call,
            fails,
            ..SOUND
        };
        let done = (replied_before(*traced), *traced);
        assert!(rt; is_served(alloc, &devices, Err(ServeFault::Trace), done)?);
        call = call.saturating_add(1);
    }
    let none = Devices {
        each,
        bad_line: call,
        fails,
        ..SOUND
    };
    assert!(rt; ends_well(alloc, &none)?);
    Ok(())
}

#[test]
fn each_line_may_fail_alone(rt: HostRuntime) -> Result<(), Fail> {
    let whole = starts_of_calls(rt.alloc())?;
    each_call_may_fail(&rt, rt.alloc(), 1000, true, whole.as_slice())?;
    each_call_may_fail(&rt, rt.alloc(), 1000, false, whole.as_slice())
}

#[test]
fn each_byte_of_a_line_may_fail_alone(rt: HostRuntime) -> Result<(), Fail> {
    let mut single = Vec::new(rt.alloc());
    for at in 0..LINES.len() {
        single.push(at)?;
    }
    each_call_may_fail(&rt, rt.alloc(), 1, true, single.as_slice())?;
    each_call_may_fail(&rt, rt.alloc(), 1, false, single.as_slice())
}

/// A device whose first call has this result, and whose later calls return a byte, and the number
/// of calls.
#[derive(Drop)]
struct Once {
    first: Result<usize, io::ErrorKind>,
    calls: u32,
}

impl Once {
    fn response(&mut self, most: usize) -> io::Result<usize>
        ensures { IfOk result (λ n. n ≤ most) }
    {
        self.calls = self.calls.wrapping_add(1);
        match self.first {
            _ if self.calls > 1 => Ok(most.min(1)),
            Ok(count) => Ok(count.min(most)),
            Err(kind) => Err(io::Error::from(kind)),
        }
    }
}

impl Read for Once {
    fn read(&mut self, buf: &mut [u8]) -> io::Result<usize> {
        self.response(buf.len())
    }
}

impl Write for Once {
    fn write(&mut self, buf: &[u8]) -> io::Result<usize> {
        self.response(buf.len())
    }

    fn flush(&mut self) -> io::Result<()> {
        Ok(())
    }
}

type Count = Result<usize, Broken>;

/// The result of a read for this first result of the device, and how often the device was called.
fn get_once(first: Result<usize, io::ErrorKind>) -> (Count, u32) {
    let mut device = Once { first, calls: 0 };
    let given = Port::new(&mut device).get(&mut [0; 3]);
    (given, device.calls)
}

/// The same of a write.
fn put_once(first: Result<usize, io::ErrorKind>) -> (Count, u32) {
    let mut device = Once { first, calls: 0 };
    let head_length = Port::new(&mut device).put(&[0; 3]);
    (head_length, device.calls)
}

/// The result of the device, of a read, and of a write.
const ANSWERS: &[(Result<usize, io::ErrorKind>, Count, Count)] = &[
    (Ok(0), Ok(0), Err(Broken)),
    (Ok(1), Ok(1), Ok(1)),
    (Ok(3), Ok(3), Ok(3)),
    (Err(io::ErrorKind::Other), Err(Broken), Err(Broken)),
    (Err(io::ErrorKind::Interrupted), Err(Broken), Err(Broken)),
    (Err(io::ErrorKind::WouldBlock), Err(Broken), Err(Broken)),
];

#[test]
fn a_port_calls_its_device_once(rt: HostRuntime) {
    for (first, given, head_length) in ANSWERS {
        assert!(rt; get_once(*first) == (*given, 1));
        assert!(rt; put_once(*first) == (*head_length, 1));
    }
}
