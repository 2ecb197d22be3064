//! Connected pages whose stream accepts little or fails, and lines in pieces. A masking key of four
//! zeros leaves the text of a frame as it is (RFC 6455, section 5.3).
use super::memory::Memory;
use std::alloc::Global;
use std::io;
use std::io::{ErrorKind, Read, Write};
use std::process::Abort;
use std::test::Fail;
use web::Page;

/// A page whose stream has these bytes, and accepts so many.
fn page_on(alloc: Global, input: &[u8], room: usize) -> Result<Page<Memory>, Fail> {
    let mut stream = Memory::new(alloc, input)?;
    stream.room = room;
    Ok(Page::new(alloc, stream, &[])?)
}

/// How a call ends.
#[derive(Clone, Copy, Debug, PartialEq, Eq)]
enum Outcome {
    Done,
    Closed,
    Blocked,
    Failed,
}

/// How a call with this result ends.
fn outcome_of(called: io::Result<()>) -> Outcome {
    match called {
        Ok(()) => Outcome::Done,
        Err(error) if error.kind() == ErrorKind::WouldBlock => Outcome::Blocked,
        Err(_) => Outcome::Failed,
    }
}

/// Reads into `text` until no bytes are available, and returns whether the page is closed or blocked
/// then.
fn read_all(page: &mut Page<Memory>, text: &mut Vec<u8>) -> Outcome {
    let mut room = [0; 7];
    for _ in 0..100_000 {
        match page.read(&mut room) {
            Ok(0) => return Outcome::Closed,
            Ok(count) => {
                let _kept = text.extend_from_slice(room.get(..count).unwrap_or(&[]));
            }
            Err(error) if error.kind() == ErrorKind::Interrupted => {}
            Err(error) if error.kind() == ErrorKind::WouldBlock => return Outcome::Blocked,
            Err(_) => return Outcome::Closed,
        }
    }
    Outcome::Failed
}

/// A call of a page, or a change of its stream.
#[derive(Clone, Copy)]
enum Act {
    Write(&'static [u8]),
    Send(&'static str),
    Flush,
    /// All that is available is read.
    Read,
    Close,
    /// The stream accepts so many bytes from now on.
    Room(usize),
    /// The stream fails from now on.
    Fails,
}

fn carry_out(page: &mut Page<Memory>, act: Act, text: &mut Vec<u8>) -> Outcome {
    match act {
        Act::Write(bytes) => outcome_of(page.write_all(bytes)),
        Act::Send(line) => outcome_of(page.send(line)),
        Act::Flush => outcome_of(page.flush()),
        Act::Read => read_all(page, text),
        Act::Close => {
            page.close();
            Outcome::Done
        }
        Act::Room(room) => {
            page.stream_mut().room = room;
            Outcome::Done
        }
        Act::Fails => {
            page.stream_mut().fails = true;
            Outcome::Done
        }
    }
}

/// A call, its end, and all bytes sent to the page by then.
type Row = (Act, Outcome, &'static [u8]);

/// What the page sends, how many bytes it accepts at first, and the rows.
type Story = (&'static [u8], usize, &'static [Row]);

const STORIES: &[Story] = &[
    // Between two lines another message is sent, and within a line none.
    (
        b"",
        usize::MAX,
        &[
            (Act::Send("NODE 1"), Outcome::Done, b"\x81\x06NODE 1"),
            (Act::Write(b"SENT"), Outcome::Done, b"\x81\x06NODE 1"),
            (Act::Send("NODE 2"), Outcome::Blocked, b"\x81\x06NODE 1"),
            (
                Act::Write(b" OK\r\n"),
                Outcome::Done,
                b"\x81\x06NODE 1\x81\x07SENT OK",
            ),
            (
                Act::Send("NODE 3"),
                Outcome::Done,
                b"\x81\x06NODE 1\x81\x07SENT OK\x81\x06NODE 3",
            ),
        ],
    ),
    // A stream that stops continues where it stopped. A read sends queued bytes too.
    (
        b"",
        3,
        &[
            (Act::Write(b"Hello\r\n"), Outcome::Done, b"\x81\x05\x48"),
            (Act::Room(2), Outcome::Done, b"\x81\x05\x48"),
            (Act::Flush, Outcome::Done, b"\x81\x05\x48\x65\x6c"),
            (
                Act::Room(usize::MAX),
                Outcome::Done,
                b"\x81\x05\x48\x65\x6c",
            ),
            (Act::Read, Outcome::Blocked, b"\x81\x05\x48\x65\x6c\x6c\x6f"),
        ],
    ),
    // A stream that fails.
    (
        b"",
        1,
        &[
            (Act::Write(b"Hello\r\n"), Outcome::Done, b"\x81"),
            (Act::Fails, Outcome::Done, b"\x81"),
            (Act::Write(b"more\r\n"), Outcome::Failed, b"\x81"),
            (Act::Flush, Outcome::Failed, b"\x81"),
            (Act::Send("NODE 1"), Outcome::Failed, b"\x81"),
        ],
    ),
    // The server closes, with the code 1001.
    (
        b"\x81\x81\0\0\0\0c",
        usize::MAX,
        &[
            (Act::Close, Outcome::Done, b"\x88\x02\x03\xe9"),
            (Act::Read, Outcome::Closed, b"\x88\x02\x03\xe9"),
            (
                Act::Write(b"more\r\n"),
                Outcome::Failed,
                b"\x88\x02\x03\xe9",
            ),
        ],
    ),
];

/// Asserts each row of a story.
fn check(rt: &impl Abort, alloc: Global, page: &mut Page<Memory>, rows: &'static [Row]) {
    let mut text = Vec::new(alloc);
    for row in rows {
        let (act, outcome, sent) = *row;
        assert_eq!(rt; carry_out(page, act, &mut text), outcome);
        assert!(rt; page.stream().output.as_slice() == sent);
    }
}

#[test]
fn pages_on_streams_that_stop_or_fail(rt: HostRuntime) -> Result<(), Fail> {
    for (input, room, rows) in STORIES {
        let mut page = page_on(rt.alloc(), input, *room)?;
        check(&rt, rt.alloc(), &mut page, rows);
    }
    Ok(())
}

/// The bytes written to a page, in two pieces divided at every point, and the bytes sent to it.
const WRITTEN: &[(&[u8], &[u8])] = &[
    (b"", b""),
    (b"Hello\r\n", b"\x81\x05\x48\x65\x6c\x6c\x6f"),
    (b"Hello\n", b"\x81\x05\x48\x65\x6c\x6c\x6f"),
    (
        b"RECEIVE 83 7C\r\nSENT OK\r\n",
        b"\x81\x0dRECEIVE 83 7C\x81\x07SENT OK",
    ),
    (b"SENT OK\r\nRECEI", b"\x81\x07SENT OK"),
    (b"SENT OK\r", b""),
    (b"\r\n\na\rb\r\r\n", b"\x81\0\x81\0\x81\x04a\rb\r"),
];

/// Writes two pieces to a new page.
fn check_written(rt: &impl Abort, page: &mut Page<Memory>, pieces: (&[u8], &[u8]), sent: &[u8]) {
    let (first, second) = pieces;
    assert_eq!(rt; outcome_of(page.write_all(first)), Outcome::Done);
    assert_eq!(rt; outcome_of(page.write_all(second)), Outcome::Done);
    assert!(rt; page.stream().output.as_slice() == sent);
}

#[test]
fn lines_become_messages(rt: HostRuntime) -> Result<(), Fail> {
    for (bytes, sent) in WRITTEN {
        for cut in 0..=bytes.len() {
            let mut page = page_on(rt.alloc(), b"", usize::MAX)?;
            check_written(&rt, &mut page, bytes.split_at(cut), sent);
        }
    }
    Ok(())
}

/// A line of 13 bytes, which is queued as a frame of 15.
const LINE: &[u8] = b"RECEIVE 83 7C\r\n";

/// Writes lines until the page is full. Returns how many bytes it took, and what is left of the last
/// line.
fn fill(page: &mut Page<Memory>) -> (usize, &'static [u8]) {
    let mut rest = LINE;
    let mut taken = 0usize;
    for _ in 0..10_000 {
        let Ok(count) = page.write(rest) else {
            return (taken, rest);
        };
        taken = taken.saturating_add(count);
        rest = rest.get(count..).unwrap_or(&[]);
        if rest.is_empty() {
            rest = LINE;
        }
    }
    (taken, rest)
}

fn check_full(rt: &impl Abort, page: &mut Page<Memory>) {
    let (taken, rest) = fill(page);
    assert!(rt; taken > 60_000 && taken < 66_000);
    assert_eq!(rt; outcome_of(page.write_all(rest)), Outcome::Blocked);
    assert_eq!(rt; outcome_of(page.send("NODE 1")), Outcome::Blocked);
    // Queued bytes are sent whole, and the line continues where it stopped.
    page.stream_mut().room = usize::MAX;
    assert!(rt; rest == b"\n".as_slice());
    assert_eq!(rt; outcome_of(page.write_all(rest)), Outcome::Done);
    let sent = page.stream().output.as_slice();
    assert_eq!(rt; sent.len(), taken.saturating_add(1));
    assert!(rt; sent.ends_with(b"\x81\x0dRECEIVE 83 7C"));
}

#[test]
fn a_page_that_does_not_read_fills(rt: HostRuntime) -> Result<(), Fail> {
    let mut page = page_on(rt.alloc(), b"", 0)?;
    check_full(&rt, &mut page);
    Ok(())
}

/// 20,000 pings, and then a text.
fn pings(alloc: Global) -> Result<Vec<u8>, Fail> {
    let mut frames = Vec::new(alloc);
    for _ in 0..20_000 {
        frames.extend_from_slice(b"\x89\x82\0\0\0\0ab")?;
    }
    frames.extend_from_slice(b"\x81\x81\0\0\0\0c")?;
    Ok(frames)
}

fn check_flood(rt: &impl Abort, alloc: Global, page: &mut Page<Memory>) {
    let mut text = Vec::new(alloc);
    let mut room = [0; 8];
    assert!(rt; page.read(&mut room).is_err());
    // One read of the stream.
    assert!(rt; page.stream().at <= 4_096);
    // If no pong is accepted, the pings stay unread.
    assert_eq!(rt; read_all(page, &mut text), Outcome::Blocked);
    assert!(rt; text.is_empty() && page.stream().at < 150_000);
    page.stream_mut().room = usize::MAX;
    assert_eq!(rt; read_all(page, &mut text), Outcome::Blocked);
    assert!(rt; text.as_slice() == b"c\n".as_slice());
    assert_eq!(rt; page.stream().output.len(), 80_000);
}

#[test]
fn a_flood_of_pings_is_bounded(rt: HostRuntime) -> Result<(), Fail> {
    let frames = pings(rt.alloc())?;
    let mut page = page_on(rt.alloc(), frames.as_slice(), 0)?;
    check_flood(&rt, rt.alloc(), &mut page);
    Ok(())
}
