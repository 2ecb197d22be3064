//! The arguments of the command line.

use crate::Explain;
use filter::{Filter, execute_words};
use input_text::{TrackedReader, TrackedWriter};
use test_support::has_all;

/// Arguments, the status, and parts of standard output and of standard error.
const RUNS: [(
    &'static [&'static str],
    u8,
    &'static [&'static str],
    &'static [&'static str],
); 7] = [
    (&[], 0, &["83 7C  track power on"], &[]),
    (
        &["--help"],
        0,
        &[
            "Usage: explain [OPTIONS] [FILE]",
            "standard input",
            "Example: ",
        ],
        &[],
    ),
    (&["--hex"], 0, &["83 7C\n"], &[]),
    (&["--version"], 0, &["explain 1."], &[]),
    (&["--other"], 1, &[], &["'--other'", "Usage: explain"]),
    (&["one", "two"], 1, &[], &["'two'", "Usage: explain"]),
    (
        &["no such folder/bus.log"],
        2,
        &[],
        &["explain: cannot read no such folder/bus.log: no such file\n"],
    ),
];

#[test]
fn words(rt: HostRuntime) {
    for (words, wanted, wrote, told) in RUNS {
        let mut input = TrackedReader::new(b"83 7C\n".as_slice());
        let mut output = TrackedWriter::new(Vec::new(rt.alloc()));
        let mut faults = Vec::new(rt.alloc());
        let text = Explain.text();
        let status = execute_words(
            &Explain,
            text,
            &rt,
            words,
            &mut input,
            &mut output,
            &mut faults,
        );
        let output = output.into_inner();
        assert!(rt; status == wanted, "of {words:?}");
        assert!(rt; has_all(output.as_slice(), wrote), "of {words:?}");
        assert!(rt; has_all(faults.as_slice(), told), "of {words:?}");
        assert!(rt; output.is_empty() == wrote.is_empty(), "of {words:?}");
        assert!(rt; faults.is_empty() == told.is_empty(), "of {words:?}");
    }
}
