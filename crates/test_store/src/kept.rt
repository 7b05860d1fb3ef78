//! Files that are kept next to a store.
use crate::folders::make_folder;
use std::fs;
use std::test::Fail;
use store_files::keep_torn;

// Torn ends are kept next to one another, each once.
#[test]
fn what_is_kept(rt: HostRuntime) -> Result<(), Fail> {
    let dir = "test_store_kept";
    make_folder(&rt, dir)?;
    let mut outcome = Vec::new(rt.alloc());
    for octets in [b"first, ".as_slice(), b"second, ", b"first, "] {
        if !octets.is_empty() {
            let path = keep_torn(&rt, rt.alloc(), dir, octets)?;
            outcome.extend_from_slice(path.as_bytes())?;
            outcome.extend_from_slice(&fs::read(&rt, path.as_str())?)?;
        }
    }
    assert!(rt; !fs::exists(&rt, "test_store_kept/torn-3")?);
    assert_eq!(rt;
        String::from_utf8_lossy(rt.alloc(), &outcome)?.as_str(),
        "test_store_kept/torn-1first, test_store_kept/torn-2second, test_store_kept/torn-1first, "
    );
    fs::remove_dir_all(&rt, dir)?;
    Ok(())
}
