//! What is found in directories, and stores that are locked.
use crate::folders::{found, make_folder, pair_of, put_pair, read};
use std::fs;
use std::test::Fail;
use store_files::open_store;

/// A directory: its files, the result of opening it, and what a reader finds.
#[derive(Drop)]
struct Case {
    files: &'static [(&'static str, &'static [u8])],
    opened: &'static [u8],
    outcome: &'static [u8],
}

/// Directories without a journal, also with the files of a pair that a crash interrupted, and with texts whose journal is lost; and one whose
/// journal does not start with a head, which is found with an empty text, whatever texts are there.
const CASES: [Case; 5] = [
    Case {
        files: &[],
        opened: b"empty",
        outcome: b"not there",
    },
    Case {
        files: &[("journal.new", b"half")],
        opened: b"empty",
        outcome: b"not there",
    },
    Case {
        files: &[("zone-0", b"half of a text"), ("journal.new", b"half")],
        opened: b"no journal 0",
        outcome: b"not there",
    },
    Case {
        files: &[("zone-9", b"a text"), ("zone-10", b"a text")],
        opened: b"no other journal",
        outcome: b"not there",
    },
    Case {
        files: &[("zone-0", b"a text"), ("journal", b"no head")],
        opened: b"no head",
        outcome: b"no head",
    },
];

/// Writes files to a directory that has no others.
fn lay(rt: &HostRuntime, dir: &str, files: &[(&str, &[u8])]) -> Result<(), Fail> {
    make_folder(rt, dir)?;
    for (name, octets) in files {
        let path = format!(in rt.alloc(); "{dir}/{name}")?;
        fs::write(rt, path.as_str(), *octets)?;
    }
    Ok(())
}

// What is found in directories. A journal whose text is missing is reported with the text's number, and is not taken for an empty store. Where
// there is no directory, none is made.
#[test]
fn what_is_found(rt: HostRuntime) -> Result<(), Fail> {
    let dir = "test_store_found";
    for (at, case) in CASES.iter().enumerate() {
        lay(&rt, dir, case.files)?;
        let (outcome, opened) = (read(&rt, dir)?, found(&rt, dir)?);
        let right = outcome.as_slice() == case.outcome && opened.as_slice() == case.opened;
        assert!(rt; right, "folder {at}");
    }
    put_pair(&rt, dir, 3, b"a text")?;
    fs::remove_file(&rt, "test_store_found/zone-3")?;
    assert_eq!(rt; found(&rt, dir)?.as_slice(), b"no text 3".as_slice());
    assert_eq!(rt; read(&rt, dir)?.as_slice(), b"not there".as_slice());
    fs::remove_dir_all(&rt, dir)?;
    assert_eq!(rt; found(&rt, dir)?.as_slice(), b"not there".as_slice());
    Ok(())
}

// A second open is refused while the first holds the lock, and finds the store once the lock is released (flock(2)). A reader is not refused.
#[test]
fn one_holds_a_store(rt: HostRuntime) -> Result<(), Fail> {
    let dir = "test_store_held";
    make_folder(&rt, dir)?;
    let first = open_store(&rt, rt.alloc(), dir)?;
    let mut outcome = found(&rt, dir)?;
    put_pair(&rt, dir, 0, b"a text")?;
    outcome.extend_from_slice(&found(&rt, dir)?)?;
    outcome.extend_from_slice(&read(&rt, dir)?)?;
    drop(first);
    outcome.extend_from_slice(&found(&rt, dir)?)?;
    let pair = pair_of(rt.alloc(), 0, b"a text")?;
    let mut right = b"lockedlocked".to_vec(rt.alloc())?;
    right.extend_from_slice(&pair)?;
    right.extend_from_slice(&pair)?;
    assert_eq!(rt; outcome, right);
    fs::remove_dir_all(&rt, dir)?;
    Ok(())
}
