use crate::Supply;
use std::test::Fail;

// Takes both and finds no third, gives 1 back, and takes it again.
#[test]
fn a_supply_of_two(rt: HostRuntime) -> Result<(), Fail> {
    let mut supply = Supply::create(rt.alloc(), 2)?;
    assert_eq!(rt; (supply.left(), supply.take()), (2, Some(0)));
    let Some(slab) = supply.take() else {
        panic!(rt; "a supply of one");
    };
    let third = supply.take();
    assert_eq!(rt; (slab, third, supply.left()), (1, None, 0));
    supply.give(slab);
    assert_eq!(rt;
        (supply.left(), supply.take(), supply.take()),
        (1, Some(1), None)
    );
    Ok(())
}
