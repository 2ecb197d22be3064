//! Lines and their explanations, worked out by hand from LocoNet Personal Use Edition 1.0 and from
//! S-9.2 and S-9.2.1. Each text is read at once, in two pieces divided at every point, and byte by
//! byte.

use crate::Explain;
use std::alloc::Global;
use std::io::Read;
use std::test::Fail;
use test_support::{Uneven, run_from};

/// Whether a run on this reader writes this.
fn comes_so<R: Read>(rt: &HostRuntime, reader: &mut R, wanted: &[u8]) -> bool {
    run_from(&Explain, rt.alloc(), reader).is(0, wanted, b"")
}

/// Whether a run on a text writes this, however the text is divided.
fn comes_to(rt: &HostRuntime, text: &[u8], wanted: &[u8]) -> bool {
    for first in 1..=text.len() {
        let mut pieces = Read::chain(&text[..first], &text[first..]);
        if !comes_so(rt, &mut pieces, wanted) {
            return false;
        }
    }
    comes_so(rt, &mut Uneven::new(text, 1, None), wanted)
}

// The text of a line, its end, and the explanation written between the two.
type Row = (&'static [u8], &'static [u8], &'static [u8]);

const PRINTED: [Row; 12] = [
    (
        b"reply 0 E7 0E 01 23 03 00 00 06 00 00 00 00 00 31",
        b"\n",
        b"  slot 1: locomotive 3, idle, 128 steps, stop, forward; track off",
    ),
    (
        b"reply 7 E7 0E 01 33 03 00 00 07 00 00 00 00 00 20",
        b"\n",
        b"  slot 1: locomotive 3, in use, 128 steps, stop, forward; track on",
    ),
    (
        b"reply 0 B4 3F 00 74",
        b"\n",
        b"  no free slot for the locomotive",
    ),
    (
        b"track 1 03 3F C0 FC",
        b"\n",
        b"  locomotive 3: step 63 of 128, forward",
    ),
    (b"track 18446744073709551615 FF 00 FF", b"\n", b"  idle"),
    (b"track 3 off", b"\n", b"  no power, nothing is sent"),
    // The same five bytes are a message after one word, and a packet after the other.
    (b"reply 0 81 7E", b"\n", b"  busy"),
    (b"track 0 81 7E", b"\n", b"  wrong length"),
    (
        b"msg A0 01 40 1E speed slot 1 spd 64",
        b"\n",
        b"  slot 1: speed 63 of 126",
    ),
    (b"msg BF 00 03 43 address 3", b"\n", b"  take locomotive 3"),
    (
        b"msg ED 0B 7F 23 22 03 21 00 00 00 45 imm 2 03 A1 00 00 00",
        b"\n",
        b"  send to the track: locomotive 3: F9 to F12: F9 on",
    ),
    (b"msg 83 7C power on", b"\n", b"  track power on"),
];

const CAPTURED: [Row; 21] = [
    (b"RECEIVE 83 7C", b"\r\n", b"  track power on"),
    (b"SEND 82 7D", b"\r\n", b"  track power off"),
    (b"SEND\t82  7d", b"\n", b"  track power off"),
    (b"83 7C", b"\n", b"  track power on"),
    (b"83 7C", b"", b"  track power on"),
    (b" 83 7C ", b"\r\n", b"  track power on"),
    (b"a0 01 40 1e", b"", b"  slot 1: speed 63 of 126"),
    (b"track 2 off", b"", b"  no power, nothing is sent"),
    // The explanation of an invalid message or packet is the reason.
    (b"83 7D", b"\n", b"  wrong check byte, should be 7C"),
    // Several messages, and bytes that belong to none.
    (b"83 7C 00", b"\n", b"  track power on  skipped 00"),
    (
        b"12 34 A0 01 40 1E",
        b"\n",
        b"  skipped 12 34  slot 1: speed 63 of 126",
    ),
    (
        b"A0 01 40 1E 83 7D",
        b"\r\n",
        b"  slot 1: speed 63 of 126  wrong check byte, should be 7C",
    ),
    (b"A0 01 83 7C", b"", b"  skipped A0 01  track power on"),
    (
        b"[83 7C 82 7D]",
        b"\n",
        b"  track power on  track power off",
    ),
    // No whole message, and a line that has one alone.
    (b"83 7D 00", b"\n", b"  wrong length"),
    (b"RECEIVE 83 7C 00", b"\r\n", b"  wrong length"),
    (b"03", b"\n", b"  no opcode"),
    (b"A0 81 40 1E", b"\n", b"  data above 7F"),
    (
        b"RECEIVE 83 7D",
        b"\r\n",
        b"  wrong check byte, should be 7C",
    ),
    (b"track 4 FF 00 FE", b"\n", b"  wrong check"),
    (b"track 4 FF FF", b"\n", b"  wrong length"),
];

const UNCHANGED: [Row; 32] = [
    (b"", b"", b""),
    (b"", b"\n", b""),
    (b"", b"\r\n", b""),
    (b" ", b"\n", b""),
    (b"VERSION lbserver station", b"\r\n", b""),
    (b"SENT OK", b"\r\n", b""),
    (b"SENT ERROR wrong check byte", b"\r\n", b""),
    (b"listening 127.0.0.1:1234", b"\n", b""),
    (b"client 1 joins", b"\n", b""),
    // `lbserver` explains its messages.
    (b"message 83 7C  track power on", b"\n", b""),
    (b"node yard module 1 outputs 00000000", b"\n", b""),
    (b"# Power on (OPC_GPON).", b"\n", b""),
    (b"line 0 83 7C", b"\n", b""),
    // Words without bytes after them.
    (b"reply", b"\n", b""),
    (b"reply 0", b"\n", b""),
    (b"track", b"\n", b""),
    (b"track 1", b"\n", b""),
    (b"track 1 OFF", b"\n", b""),
    (b"track 1 off ", b"\n", b""),
    (b"track off", b"\n", b""),
    (b"msg", b"\n", b""),
    (b"msg power on", b"\n", b""),
    (b"RECEIVE", b"\r\n", b""),
    (b"SEND ", b"\r\n", b""),
    // Not all words are bytes.
    (b"reply 0 83 7C on", b"\n", b""),
    (b"track 1 FF 00 FF on", b"\n", b""),
    (b"SEND 8 37C", b"\n", b""),
    (b"83 7G", b"\n", b""),
    (b"83,7C", b"\n", b""),
    // A carriage return belongs to the line end only before a line feed.
    (b"83 7C\r", b"", b""),
    (b"83 7C\r", b"\r\n", b""),
    (b"\x00\xFF 83 7C", b"\n", b""),
];

/// The texts of lines one after another, or the output for them.
fn all_of(alloc: Global, rows: &[Row], with_notes: bool) -> Result<Vec<u8>, Fail> {
    let mut text = Vec::new(alloc);
    for (line, end, comment) in rows {
        text.extend_from_slice(line)?;
        if with_notes {
            text.extend_from_slice(comment)?;
        }
        text.extend_from_slice(end)?;
    }
    Ok(text)
}

/// The index of the first row with another output.
fn first_other(rt: &HostRuntime, rows: &[Row]) -> Result<Option<usize>, Fail> {
    for (place, row) in rows.iter().enumerate() {
        let one = [*row];
        let text = all_of(rt.alloc(), &one, false)?;
        let wanted = all_of(rt.alloc(), &one, true)?;
        if !comes_to(rt, text.as_slice(), wanted.as_slice()) {
            return Ok(Some(place));
        }
    }
    Ok(None)
}

#[test]
fn lines_are_explained(rt: HostRuntime) -> Result<(), Fail> {
    assert_eq!(rt; first_other(&rt, &PRINTED)?, None);
    assert_eq!(rt; first_other(&rt, &CAPTURED)?, None);
    assert_eq!(rt; first_other(&rt, &UNCHANGED)?, None);
    Ok(())
}

#[test]
fn lines_are_explained_one_after_another(rt: HostRuntime) -> Result<(), Fail> {
    let text = all_of(rt.alloc(), &PRINTED, false)?;
    let wanted = all_of(rt.alloc(), &PRINTED, true)?;
    assert!(rt; comes_to(&rt, text.as_slice(), wanted.as_slice()));
    Ok(())
}

/// `83 7C` and spaces, `length` characters in all, then the end, and a line after it.
fn padded(alloc: Global, length: usize, comment: &[u8], end: &[u8]) -> Result<Vec<u8>, Fail> {
    let mut text = Vec::new(alloc);
    text.extend_from_slice(b"83 7C")?;
    for _ in 5..length {
        text.push(b' ')?;
    }
    text.extend_from_slice(comment)?;
    text.extend_from_slice(end)?;
    Ok(text)
}

#[test]
fn long_lines_are_passed(rt: HostRuntime) -> Result<(), Fail> {
    let rows: [(usize, &[u8], &[u8]); 11] = [
        (399, b"\n", b"  track power on"),
        (400, b"", b"  track power on"),
        (400, b"\n", b"  track power on"),
        (400, b"\r\n", b"  track power on"),
        (400, b"\r\r\n", b""),
        (401, b"", b""),
        (401, b"\n", b""),
        (401, b"\r\n", b""),
        (402, b"\n", b""),
        (500, b"\r\n", b""),
        (803, b"\n", b""),
    ];
    for (length, end, comment) in rows {
        let mut text = padded(rt.alloc(), length, b"", end)?;
        let mut wanted = padded(rt.alloc(), length, comment, end)?;
        if end.ends_with(b"\n") {
            text.extend_from_slice(b"81 7E")?;
            wanted.extend_from_slice(b"81 7E  busy")?;
        }
        assert!(rt; comes_to(&rt, text.as_slice(), wanted.as_slice()));
    }
    Ok(())
}

#[test]
fn a_line_is_longer_than_a_read(rt: HostRuntime) -> Result<(), Fail> {
    let mut text = padded(rt.alloc(), 10_000, b"", b"\n")?;
    let mut wanted = padded(rt.alloc(), 10_000, b"", b"\n")?;
    text.extend_from_slice(b"81 7E\n")?;
    wanted.extend_from_slice(b"81 7E  busy\n")?;
    let ran = run_from(&Explain, rt.alloc(), &mut text.as_slice());
    assert_eq!(rt; ran.status, 0);
    assert_eq!(rt; ran.output.as_slice(), wanted.as_slice());
    Ok(())
}
