//! Two threads draw.
use crate::two_threads;
use std::test::Fail;

#[test]
fn two_threads_draw(rt: HostRuntime) -> Result<(), Fail> {
    let outcome = two_threads(&rt, rt.alloc(), 7)?;
    assert_eq!(rt; u64::from(outcome.one) + u64::from(outcome.other), 15);
    assert_eq!(rt; outcome.history.len(), 2);
    Ok(())
}
