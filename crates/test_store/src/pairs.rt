//! Pairs that replace one another.
use crate::folders::{begun, found, make_folder, pair_of, put_pair};
use std::fs;
use std::test::Fail;
use store_files::{NewText, begin_pair, is_in_place};

/// Leaves in a directory what a crash before the rename leaves of the pair with a number.
fn leave_half(rt: &HostRuntime, dir: &str, number: u64) -> Result<(), Fail> {
    let text = format!(in rt.alloc(); "{dir}/zone-{number}")?;
    fs::write(rt, text.as_str(), b"half of a text".as_slice())?;
    let journal = format!(in rt.alloc(); "{dir}/journal.new")?;
    fs::write(rt, journal.as_str(), [7; 500].as_slice())?;
    Ok(())
}

/// Creates the first store of a directory, with a text. Returns its zone text followed by its journal, as they are found.
fn create_first(rt: &HostRuntime, dir: &str, text: &[u8]) -> Result<Vec<u8>, Fail> {
    let (journal, _) = begun(rt.alloc(), 0, text)?;
    match begin_pair(rt, rt.alloc(), dir, text, &journal) {
        Ok(_) => Ok(found(rt, dir)?),
        Err(_) => Err(Fail::from("no pair is begun")),
    }
}

// A first pair is created over what a crash has left of one: the journal that names its text is there before the text is. Then the directory
// has the pair.
#[test]
fn a_first_pair_is_begun(rt: HostRuntime) -> Result<(), Fail> {
    let dir = "test_store_first";
    for text in [None, Some(b"".as_slice()), Some(b"half")] {
        make_folder(&rt, dir)?;
        if let Some(text) = text {
            let (laid, _) = begun(rt.alloc(), 0, b"other")?;
            fs::write(&rt, "test_store_first/journal.new", laid.as_slice())?;
            fs::write(&rt, "test_store_first/zone-0", text)?;
        }
        assert_eq!(rt; found(&rt, dir)?.as_slice(), b"empty".as_slice());
        assert_eq!(rt;
            create_first(&rt, dir, b"first")?,
            pair_of(rt.alloc(), 0, b"first")?
        );
        assert!(rt; !fs::exists(&rt, "test_store_first/journal.new")?);
    }
    fs::remove_dir_all(&rt, dir)?;
    Ok(())
}

// What is written is found, and the next pair replaces it, with its text next to the one before. A crash before the rename leaves the old
// pair, whatever is left of the new one, and the next pair is written over that. A pair that cannot be written leaves the old one too.
#[test]
fn pairs_are_found(rt: HostRuntime) -> Result<(), Fail> {
    let dir = "test_store_pairs";
    make_folder(&rt, dir)?;
    let mut before = create_first(&rt, dir, b"first")?;
    for (number, text) in [(1, b"second".as_slice()), (2, b"")] {
        leave_half(&rt, dir, number)?;
        let is_before = found(&rt, dir)? == before;
        put_pair(&rt, dir, number, text)?;
        before = pair_of(rt.alloc(), number, text)?;
        assert!(rt; is_before && found(&rt, dir)? == before, "pair {number}");
    }
    assert_eq!(rt;
        fs::read(&rt, "test_store_pairs/zone-1")?.as_slice(),
        b"second".as_slice()
    );
    assert!(rt; !fs::exists(&rt, "test_store_pairs/journal.new")?);
    fs::create_dir(&rt, "test_store_pairs/zone-3")?;
    let outcome = NewText::create(&rt, rt.alloc(), dir, 3);
    assert!(rt; outcome.is_err() && found(&rt, dir)? == before);
    fs::remove_dir_all(&rt, dir)?;
    Ok(())
}

// A journal is in place if its directory has that very file under its name. It is not in place if the file has another name, if a copy of it
// is there, or if the directory is gone. It is in place again once the file is back.
#[test]
fn journals_are_in_place(rt: HostRuntime) -> Result<(), Fail> {
    let dir = "test_store_place";
    make_folder(&rt, dir)?;
    let journal = put_pair(&rt, dir, 1, b"a text")?;
    let mut outcome = Vec::new(rt.alloc());
    outcome.push(is_in_place(&rt, rt.alloc(), dir, &journal)?)?;
    fs::rename(&rt, "test_store_place/journal", "test_store_place/moved")?;
    outcome.push(is_in_place(&rt, rt.alloc(), dir, &journal)?)?;
    fs::copy(&rt, "test_store_place/moved", "test_store_place/journal")?;
    outcome.push(is_in_place(&rt, rt.alloc(), dir, &journal)?)?;
    fs::rename(&rt, "test_store_place/moved", "test_store_place/journal")?;
    outcome.push(is_in_place(&rt, rt.alloc(), dir, &journal)?)?;
    fs::remove_dir_all(&rt, dir)?;
    outcome.push(is_in_place(&rt, rt.alloc(), dir, &journal)?)?;
    assert_eq!(rt;
        outcome.as_slice(),
        [true, false, false, true, false].as_slice()
    );
    Ok(())
}
