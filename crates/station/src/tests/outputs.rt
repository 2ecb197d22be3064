//! Outputs that fail at some write or at a flush, that accept few bytes at a time, and that are
//! interrupted.

use super::served::serve_to;
use crate::execute;
use input_text::{TrackedReader, TrackedWriter};
use std::fmt::Write;
use std::fs;
use std::io::ErrorKind;
use std::test::Fail;
use test_support::Rough;

/// A failure of no particular kind.
const FAILS: Option<ErrorKind> = Some(ErrorKind::Other);

/// The most bytes a write accepts, how many calls in a row are interrupted, how many writes accept
/// bytes, and what follows them: a failure, or a write of no byte. Then the status, and how many
/// bytes of the text are written.
type Row = (usize, u32, u32, Option<ErrorKind>, u8, usize);

/// The output of three turns without power, 36 bytes.
const THREE: &[u8] = b"track 1 off\ntrack 2 off\ntrack 3 off\n";

#[test]
fn a_script_is_printed_or_it_is_told(rt: HostRuntime) {
    let rows: [Row; 9] = [
        (5, 0, 100, FAILS, 0, 36),
        // Every second call is interrupted, and then two of three.
        (5, 1, 100, FAILS, 0, 36),
        (5, 2, 100, FAILS, 0, 36),
        (5, 0, 0, FAILS, 4, 0),
        (5, 0, 1, FAILS, 4, 5),
        (5, 1, 2, FAILS, 4, 10),
        (5, 2, 7, None, 4, 35),
        // All is written, and the flush fails; and succeeds.
        (5, 1, 8, FAILS, 4, 36),
        (5, 2, 8, None, 0, 36),
    ];
    for (most, interrupts, writes, end, status, count) in rows {
        let rough = Rough::new(rt.alloc(), most, interrupts, writes, end);
        let mut output = TrackedWriter::new(rough);
        let mut input = TrackedReader::new(b"turn 3".as_slice());
        let mut faults = Vec::new(rt.alloc());
        let ended = execute(&rt, &[], &mut input, &mut output, &mut faults);
        assert_eq!(rt; ended, status);
        assert_eq!(rt; output.has_failed(), status == 4);
        assert_eq!(rt; faults.is_empty(), status == 0);
        assert_eq!(rt; output.into_inner().written.as_slice(), &THREE[..count]);
    }
}

#[test]
fn a_long_text_is_printed_piece_by_piece(rt: HostRuntime) -> Result<(), Fail> {
    // Some 30,000 bytes, which are several buffers.
    let mut wanted = String::new(rt.alloc());
    for turn in 1..=2000u32 {
        writeln!(wanted, "track {turn} off")?;
    }
    for interrupts in 0..3 {
        let mut output = TrackedWriter::new(Rough::new(rt.alloc(), 700, interrupts, 1000, FAILS));
        let mut input = TrackedReader::new(b"turn 2000".as_slice());
        let mut faults = Vec::new(rt.alloc());
        let status = execute(&rt, &[], &mut input, &mut output, &mut faults);
        assert_eq!(rt; status, 0);
        assert!(rt; output.into_inner().written.as_slice() == wanted.as_str().as_bytes());
    }
    Ok(())
}

/// The output of a run whose one client switches the power on: 25 bytes, then 29 of the trace and
/// 44 of the decoder.
const SERVED: &[u8] = b"listening 127.0.0.1:5550
track 1 off
track 2 FF 00 FF
node a short 3 stop forward F 0000000000000
";

#[test]
fn what_is_served_is_printed_or_it_is_told(rt: HostRuntime) -> Result<(), Fail> {
    let file = "station-test-outputs.toml";
    fs::write(
        &rt,
        file,
        b"version = 1\nnode = [{name = \"a\", kind = \"loco\", cv1 = 3, cv29 = 2}]".as_slice(),
    )?;
    let rows: [(Row, &[u8]); 9] = [
        ((1, 1, 1000, FAILS, 0, SERVED.len()), b""),
        ((1, 2, 1000, FAILS, 0, SERVED.len()), b""),
        ((1, 0, 0, FAILS, 4, 0), b"station: output\n"),
        ((1, 1, 24, None, 4, 24), b"station: output\n"),
        // The line that reports the port cannot be flushed.
        ((1, 2, 25, FAILS, 4, 25), b"station: output\n"),
        ((1, 0, 26, FAILS, 4, 26), b"station: serve fault 3\n"),
        ((1, 2, 53, None, 4, 53), b"station: serve fault 3\n"),
        ((1, 1, 54, FAILS, 4, 54), b"station: output\n"),
        ((1, 0, 97, None, 4, 97), b"station: output\n"),
    ];
    let words = ["serve", "--port", "5550", "--roster", file];
    for ((most, interrupts, writes, end, status, count), told) in rows {
        let mut output = Rough::new(rt.alloc(), most, interrupts, writes, end);
        let (ended, faults) = serve_to(&rt, &words, &[&[0x83, 0x7C]], &mut output);
        assert_eq!(rt; faults.as_slice(), told);
        assert_eq!(rt; ended, status);
        assert_eq!(rt; output.written.as_slice(), &SERVED[..count]);
    }
    fs::remove_file(&rt, file)?;
    Ok(())
}
