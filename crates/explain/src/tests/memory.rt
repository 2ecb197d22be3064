//! Out of memory: a run with a limited number of bytes left, from none until it succeeds. Its
//! result is that memory ran out or the ordinary one, and no third.
//!
//! This test takes the memory of the process, and so needs the allocator of the C library:
//! `rt test`, and not `rt try`.

use crate::Explain;
use std::test::Fail;
use test_support::run_as_room_grows;

/// Lines with much more output than input, so that the buffer grows more than once.
const LINES: &[u8] = b"83 7C
82 7D
83 7C
82 7D
83 7C
82 7D
81 7E";

/// The output for them.
const EXPLAINED: &[u8] = b"83 7C  track power on
82 7D  track power off
83 7C  track power on
82 7D  track power off
83 7C  track power on
82 7D  track power off
81 7E  busy";

#[test]
fn a_run_grows_or_says_so(rt: HostRuntime) -> Result<(), Fail> {
    let fault_line = b"explain: no memory\n";
    let (refused, ran) = run_as_room_grows(&Explain, rt.alloc(), LINES, fault_line)?;
    println!(rt; "refused {refused} times")?;
    assert!(rt; refused > 0 && ran.is(0, EXPLAINED, b""));
    Ok(())
}
