//! A row of values and its places, each value of which comes back as it was written last.
use raw_slots::{lay, unlay};
use std::test::Fail;

#[test]
fn two_places_are_cut_written_and_joined(rt: HostRuntime) -> Result<(), Fail> {
    let mut values = Vec::new(rt.alloc());
    values.push(3u64)?;
    values.push(5u64)?;
    let mut back = Vec::with_capacity(rt.alloc(), 2)?;
    let Ok((mut row, lease)) = lay(rt.alloc(), values) else {
        panic!(rt; "there is no memory")
    };
    let mut first = row.cut::<()>();
    let second = row.cut::<()>();
    let old = first.replace(7);
    row.join(second);
    row.join(first);
    unlay(rt.alloc(), row, lease, 2, &mut back);
    assert!(rt; old == 3 && back.as_slice() == [7, 5].as_slice());
    Ok(())
}
