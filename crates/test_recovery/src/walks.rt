//! A walk in pseudorandom order.
use crate::walker::{DIR, Walker};
use std::fs;
use std::test::Fail;

// A start after each of forty steps recovers the versions that are stored, and none after them. With this seed each kind of step comes at
// least twice.
#[test]
fn any_order_keeps_the_versions(rt: HostRuntime) -> Result<(), Fail> {
    let mut walker = Walker::new(&rt, 400)?;
    for _ in 0..40 {
        walker.step(&rt, &rt)?;
        walker.expect_all(&rt)?;
    }
    fs::remove_dir_all(&rt, DIR)?;
    Ok(())
}
