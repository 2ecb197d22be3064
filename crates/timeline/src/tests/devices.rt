//! Standard streams that fail, and an input without end.

use super::filter;
use std::test::Fail;
use test_support::first_failure;

#[test]
fn streams_may_fail(rt: HostRuntime) -> Result<(), Fail> {
    let failed = first_failure(&filter(), rt.alloc(), b"</svg>\n")?;
    assert_eq!(rt; failed, None);
    Ok(())
}
