//! Standard streams that fail, and when output is written.

use crate::Explain;
use std::alloc::Global;
use std::io;
use std::io::{ErrorKind, Write};
use test_support::{Broken, Rough, Stuck, Uneven, run_from, run_to, run_unreported};

// The output, with a bar at each flush.
#[derive(Drop)]
struct Outward {
    text: Vec<u8>,
}

impl Outward {
    fn new(alloc: Global) -> Self {
        Outward {
            text: Vec::new(alloc),
        }
    }
}

impl Write for Outward {
    fn write(&mut self, buf: &[u8]) -> io::Result<usize> {
        self.text.write(buf)
    }

    fn flush(&mut self) -> io::Result<()> {
        self.text.write_all(b"|")
    }
}

fn two_lines(end: ErrorKind) -> Uneven<'static> {
    Uneven::new(b"track 1 FF 00 FF\ntrack 2 off", 17, Some(end))
}

#[test]
fn standard_input_cannot_be_read(rt: HostRuntime) {
    let ran = run_from(&Explain, rt.alloc(), &mut Broken::new());
    assert!(rt; ran.is(2, b"", b"explain: cannot read -\n"));
}

#[test]
fn all_that_was_read_before_a_fault_is_explained(rt: HostRuntime) {
    let explained = b"track 1 FF 00 FF  idle\ntrack 2 off  no power, nothing is sent";
    let ran = run_from(&Explain, rt.alloc(), &mut two_lines(ErrorKind::Other));
    assert!(rt; ran.is(2, explained, b"explain: cannot read -\n"));
}

#[test]
fn a_read_wants_memory(rt: HostRuntime) {
    let ran = run_from(&Explain, rt.alloc(), &mut two_lines(ErrorKind::OutOfMemory));
    assert!(rt; ran.is(6, b"track 1 FF 00 FF  idle\n", b"explain: no memory\n"));
}

#[test]
fn a_line_goes_out_when_its_end_is_read(rt: HostRuntime) {
    let mut output = Outward::new(rt.alloc());
    let mut input = two_lines(ErrorKind::Other);
    let (status, _) = run_to(&Explain, rt.alloc(), &mut input, &mut output);
    assert_eq!(rt; status, 2);
    // The second read ends no line, and the bytes held are written at the end.
    assert_eq!(rt;
        output.text.as_slice(),
        b"track 1 FF 00 FF  idle\n||track 2 off  no power, nothing is sent|".as_slice()
    );
}

#[test]
fn standard_output_cannot_be_written(rt: HostRuntime) {
    for text in [
        b"track 1 FF 00 FF\n".as_slice(),
        b"track 1 FF 00 FF".as_slice(),
    ] {
        let mut reader = text;
        let (status, faults) = run_to(&Explain, rt.alloc(), &mut reader, &mut Broken::new());
        assert_eq!(rt; status, 4);
        assert_eq!(rt; faults.as_slice(), b"explain: output\n".as_slice());
    }
}

#[test]
fn a_line_is_written_or_it_is_told(rt: HostRuntime) {
    let explained = b"track 1 FF 00 FF  idle\n";
    // How many calls in a row are interrupted, how many writes accept five bytes, and what follows
    // them: a failure, or a write of no byte. Then the status, and how many bytes are written.
    let rows: [(u32, u32, Option<ErrorKind>, u8, usize); 7] = [
        (0, 100, Some(ErrorKind::Other), 0, 23),
        (1, 100, Some(ErrorKind::Other), 0, 23),
        (2, 100, Some(ErrorKind::Other), 0, 23),
        (0, 0, Some(ErrorKind::Other), 4, 0),
        (1, 2, None, 4, 10),
        // All is written, and the flush fails; and succeeds.
        (2, 5, Some(ErrorKind::Other), 4, 23),
        (2, 5, None, 0, 23),
    ];
    for (interrupts, writes, end, wanted, count) in rows {
        let mut text = b"track 1 FF 00 FF\n".as_slice();
        let mut output = Rough::new(rt.alloc(), 5, interrupts, writes, end);
        let (status, faults) = run_to(&Explain, rt.alloc(), &mut text, &mut output);
        assert_eq!(rt; status, wanted);
        assert_eq!(rt; faults.is_empty(), wanted == 0);
        assert_eq!(rt; output.written.as_slice(), &explained[..count]);
    }
}

#[test]
fn standard_output_cannot_go_out(rt: HostRuntime) {
    let mut text = b"track 1 FF 00 FF\n".as_slice();
    let (status, faults) = run_to(&Explain, rt.alloc(), &mut text, &mut Stuck);
    assert_eq!(rt; status, 4);
    assert_eq!(rt; faults.as_slice(), b"explain: output\n".as_slice());
}

#[test]
fn standard_error_cannot_be_written(rt: HostRuntime) {
    assert_eq!(rt; run_unreported(&Explain, rt.alloc(), &mut Broken::new()), 2);
}
