//! Out of memory: a run with a limited number of bytes left, from none until it succeeds. Its
//! result is that memory ran out or the ordinary one, and no third.
//!
//! This test takes the memory of the process, and so needs the allocator of the C library:
//! `rt test`, and not `rt try`.

use super::filter;
use std::test::Fail;
use test_support::run_with_little_memory;

/// A decoder, so that the list of rows grows more than once.
const DECODER: &[u8] = b"node shunter short 3 step 63 of 128 reverse F 1010000000000\n";

#[test]
fn a_run_grows_or_says_so(rt: HostRuntime) -> Result<(), Fail> {
    let (refused, ran) = run_with_little_memory(&filter(), rt.alloc(), DECODER)?;
    println!(rt; "refused {refused} times")?;
    assert!(rt; refused > 0 && ran.has_drawn_up_to(b"</g>\n</svg>\n"));
    Ok(())
}
