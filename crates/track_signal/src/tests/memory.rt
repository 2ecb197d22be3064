//! Out of memory: a run with a limited number of bytes left, from none until it succeeds. Its
//! result is that memory ran out or the ordinary one, and no third.
//!
//! This test takes the memory of the process, and so needs the allocator of the C library:
//! `rt test`, and not `rt try`.

use super::filter;
use std::test::Fail;
use test_support::run_with_little_memory;

#[test]
fn a_run_grows_or_says_so(rt: HostRuntime) -> Result<(), Fail> {
    // Six times 5,796 microseconds.
    let (refused, ran) = run_with_little_memory(&filter(), rt.alloc(), b"")?;
    println!(rt; "refused {refused} times")?;
    assert!(rt; refused > 0 && ran.has_drawn_up_to(b"\n#34776\n"));
    Ok(())
}
