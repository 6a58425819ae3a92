//! Each call once.
use crate::NumberSet;
use kmem_model::Steps;
use std::test::Fail;

// Of 200,000 numbers the last alone is there: five steps up and down lead to it, and three from the top.
#[test]
fn a_far_number(rt: HostRuntime) -> Result<(), Fail> {
    let mut set = NumberSet::create(rt.alloc(), 3, 200_000)?;
    let mut steps = Steps::create();
    set.insert(199_999);
    assert_eq!(rt;
        (set.after(0, &mut steps), steps.count()),
        (Some(199_999), 5)
    );
    assert_eq!(rt; (set.least(&mut steps), steps.count()), (Some(199_999), 8));
    assert_eq!(rt; set.before(199_999, &mut steps), None);
    set.remove(199_999);
    assert_eq!(rt;
        (set.after(0, &mut steps), set.least(&mut steps)),
        (None, None)
    );
    Ok(())
}
