//! Standard streams that fail.

use crate::execute;
use input_text::{TrackedReader, TrackedWriter};
use std::io::{ErrorKind, Read, Write};
use std::process::Abort;
use test_support::{Broken, Spaces, Stuck, Uneven};

/// Runs a script on these streams, and returns the status.
fn play<I: Read, O: Write, E: Write>(
    rt: &HostRuntime,
    input: &mut I,
    output: &mut O,
    faults: &mut E,
) -> u8 {
    execute(
        rt,
        &[],
        &mut TrackedReader::new(input),
        &mut TrackedWriter::new(output),
        faults,
    )
}

/// Whether a run whose script comes from this reader has this status, output and fault line.
fn is_played<I: Read>(
    rt: &HostRuntime,
    input: &mut I,
    status: u8,
    output: &[u8],
    fault: &[u8],
) -> bool {
    let mut written = Vec::new(rt.alloc());
    let mut faults = Vec::new(rt.alloc());
    play(rt, input, &mut written, &mut faults) == status
        && written.as_slice() == output
        && faults.as_slice() == fault
}

/// The failure of standard input, the status, and the fault line.
const UNREAD: [(ErrorKind, u8, &[u8]); 3] = [
    (ErrorKind::Other, 2, b"station: cannot read -\n"),
    (ErrorKind::WouldBlock, 2, b"station: cannot read -\n"),
    (ErrorKind::OutOfMemory, 6, b"station: no memory\n"),
];

#[test]
fn standard_input_fails(rt: HostRuntime) {
    for (kind, status, fault) in UNREAD {
        let mut broken = Broken { kind };
        assert!(rt; is_played(&rt, &mut broken, status, b"", fault));
    }
    let mut interrupted = Uneven::new(b"turn 1", 4, None);
    assert!(rt; is_played(&rt, &mut interrupted, 0, b"track 1 off\n", b""));
    // It is read one byte past the limit.
    let mut spaces = Spaces { read: 0 };
    let fault = b"station: script fault 6 at line 0\n";
    assert!(rt; is_played(&rt, &mut spaces, 5, b"", fault));
    assert_eq!(rt; spaces.read, 1_048_577);
}

/// Whether a run of this script reports that the output cannot be written.
fn is_unwritten<O: Write>(rt: &HostRuntime, script: &[u8], output: &mut O) -> bool {
    let mut input = script;
    let mut faults = Vec::new(rt.alloc());
    play(rt, &mut input, output, &mut faults) == 4
        && faults.as_slice() == b"station: output\n".as_slice()
}

/// Scripts, and the failure of standard output.
const UNWRITTEN: [(&[u8], ErrorKind); 3] = [
    (b"line 0 BF 00 03 43", ErrorKind::Other),
    (b"turn 1", ErrorKind::Other),
    (b"turn 1", ErrorKind::OutOfMemory),
];

#[test]
fn outputs_fail(rt: HostRuntime) {
    for (script, kind) in UNWRITTEN {
        let mut broken = Broken { kind };
        assert!(rt; is_unwritten(&rt, script, &mut broken));
    }
    // It cannot be flushed.
    assert!(rt; is_unwritten(&rt, b"turn 1", &mut Stuck));
    // The fault line cannot be written.
    let mut input = b"turn 0".as_slice();
    let mut output = Vec::new(rt.alloc());
    let status = play(&rt, &mut input, &mut output, &mut Broken::new());
    assert_eq!(rt; status, 5);
}
