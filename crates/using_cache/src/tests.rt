//! A cache of one slab.
use crate::{create, with_message};
use std::test::Fail;

#[test]
fn a_message_comes_back(rt: HostRuntime) -> Result<(), Fail> {
    let mut cache = create(rt.alloc(), 1)?;
    assert_eq!(rt; with_message(&mut cache, b"ready"), Ok(0));
    assert_eq!(rt; with_message(&mut cache, b"again"), Ok(0));
    assert_eq!(rt; cache.out_count(), 0);
    Ok(())
}
