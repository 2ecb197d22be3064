//! Lines and their drawing, worked out by hand from the figures of S-9.1 and S-9.2 and the format
//! of IEEE 1364.

use super::filter;
use std::alloc::Global;
use std::io::Write;
use std::test::Fail;
use test_support::run;

const HEADER: &[u8] = b"$timescale 1 us $end
$scope module track $end
$var wire 1 ! rails $end
$upscope $end
$enddefinitions $end
";

/// The bits of the idle packet FF 00 FF: 14 ones, a zero and eight bits for each byte, and a one.
const IDLE: &[u8] = b"111111111111110111111110000000000111111111";

/// The bits of 03 3F C0 FC, and then those of the idle packet.
const DRIVE_AND_IDLE: &[u8] =
    b"111111111111110000000110001111110110000000111111001111111111111110111111110000000000111111111";

/// The dump of bits, each high and then low, for 58 microseconds each if it is a one and otherwise
/// for 100.
fn drawn(alloc: Global, bits: &[u8]) -> Result<Vec<u8>, Fail> {
    let mut text = Vec::new(alloc);
    text.write_all(HEADER)?;
    let mut time = 0u32;
    for bit in bits {
        let half = if *bit == b'1' { 58 } else { 100 };
        let middle = time.wrapping_add(half);
        writeln!(text, "#{time}\n1!\n#{middle}\n0!")?;
        time = middle.wrapping_add(half);
    }
    writeln!(text, "#{time}")?;
    Ok(text)
}

#[test]
fn packets_are_drawn(rt: HostRuntime) -> Result<(), Fail> {
    let rows: [(&[u8], &[u8]); 10] = [
        (b"", b""),
        (b"track 1 off\n", b""),
        (b"listening 127.0.0.1:5550\n\nreply 0 B4 3F 00 74\n", b""),
        // None of these is the line of a turn.
        (b"tracks 1\n track 1 FF 00 FF\nTRACK 1\ntracking\n", b""),
        (b"track 1 FF 00 FF\n", IDLE),
        // The last line may lack its line feed, and a carriage return may precede one.
        (b"track 1 off\r\ntrack 2 FF 00 FF", IDLE),
        (b"track 0 FF 00 FF\r\n", IDLE),
        (b"track 18446744073709551615 FF 00 FF\n", IDLE),
        (
            b"track 1 03 3F C0 FC\nreply 0 B4 3F 00 74\ntrack 2 FF 00 FF\n",
            DRIVE_AND_IDLE,
        ),
        // `lbserver` prints neither idle packets nor turns without power.
        (
            b"track 70 03 3F C0 FC\nmessage 83 7C  track power on\ntrack 72 off\n",
            DRIVE_AND_IDLE,
        ),
    ];
    for (text, bits) in rows {
        let ran = run(&filter(), rt.alloc(), text);
        assert!(rt; ran.is(0, drawn(rt.alloc(), bits)?.as_slice(), b""));
    }
    Ok(())
}

#[test]
fn two_packets_end_at_their_sum(rt: HostRuntime) {
    // 7,596 microseconds and 5,796.
    let ran = run(
        &filter(),
        rt.alloc(),
        b"track 1 03 3F C0 FC\ntrack 2 FF 00 FF\n",
    );
    assert!(rt; ran.output.as_slice().ends_with(b"#13334\n0!\n#13392\n"));
}

#[test]
fn lines_with_a_fault_are_refused(rt: HostRuntime) -> Result<(), Fail> {
    let rows: [(&[u8], u32); 21] = [
        (b"log: 1,234 lines left out\n", 1),
        (b"track", 1),
        (b"track ", 1),
        (b"track 1", 1),
        (b"track 1 ", 1),
        // The number of the turn.
        (b"track FF 00 FF", 1),
        (b"track -1 FF 00 FF", 1),
        (b"track +1 FF 00 FF", 1),
        (b"track 01 FF 00 FF", 1),
        (b"track 18446744073709551616 FF 00 FF", 1),
        (b"track 1 OFF", 1),
        // Its bytes.
        (b"track 1 ff 00 ff", 1),
        (b"track 1 FF 0 FF", 1),
        (b"track 1 FF  00 FF", 1),
        (b"track 1 FF 00 FF ", 1),
        (b"track 1 FF FF", 1),
        (b"track 1 01 02 03 04 05 06 07", 1),
        // The check would be FF.
        (b"track 1 FF 00 FE", 1),
        // The first fault is reported.
        (b"track 1 FF 00 FF\n\ntrack 2 FF 00\ntrack x\n", 3),
        (b"reply 0 B4 3F 00 74\r\ntrack\r\ntrack 2 FF 00 FF", 2),
        (b"\n\n\ntrack 1 FF 00 FF\n\ntrack 2 on\n", 6),
    ];
    for (text, line) in rows {
        let ran = run(&filter(), rt.alloc(), text);
        let expected = format!(in rt.alloc(); "track_signal: line {line}: bad track line\n")?;
        assert!(rt; ran.is(5, b"", expected.as_str().as_bytes()));
    }
    Ok(())
}
