//! The versions that starts recover.
use crate::journals::{
    ADD_A, ADD_B, ADD_MORE, DELETE_A, DELETE_B, ZONE, joined_journal_of, journal_of,
};
use master_file::{write_set, write_zone};
use std::alloc::{AllocError, Global};
use std::test::Fail;
use store_recovery::{Recovery, recover_zone};
use zone_tree::Version;

/// The start from a zone text and the journal of these batches.
fn start_of(alloc: Global, zone: &str, batches: &[&[&str]]) -> Result<Recovery, Fail> {
    let journal = journal_of(alloc, zone, batches)?;
    Ok(recover_zone(alloc, zone.as_bytes(), &journal)?)
}

/// Appends a version as one line: its number, its serial, and the number of RRsets of which it deleted and added records.
fn put_line(alloc: Global, text: &mut String, version: &Version) -> Result<(), AllocError> {
    let (number, serial) = (version.number(), version.serial().0);
    let (gone, come) = match version.delta() {
        Some(delta) => (delta.deletions().len(), delta.additions().len()),
        None => (0, 0),
    };
    text.push_str(format!(in alloc; "{number}: {serial} -{gone} +{come}\n")?.as_str())
}

/// The versions of a start, one a line.
fn lines_of(alloc: Global, start: &Recovery) -> Result<String, AllocError> {
    let mut text = String::new(alloc);
    for version in &start.newest.older {
        put_line(alloc, &mut text, version)?;
    }
    put_line(alloc, &mut text, &start.newest.last)?;
    Ok(text)
}

// The newest versions are there, each with its changes. Of fourteen updates the six oldest versions are not there.
#[test]
fn newest_versions(rt: HostRuntime) -> Result<(), Fail> {
    let alloc: Global = rt.alloc();
    let batch = [ADD_A, ADD_B, DELETE_B, ADD_B, DELETE_B, ADD_B, DELETE_B];
    let others = [ADD_B, DELETE_B, ADD_B, DELETE_B, ADD_B, DELETE_B, ADD_B];
    let start = start_of(alloc, ZONE, &[&batch, &others])?;
    assert_eq!(rt;
        lines_of(alloc, &start)?.as_str(),
        "6: 13 -0 +1
7: 14 -1 +0
8: 15 -0 +1
9: 16 -1 +0
10: 17 -0 +1
11: 18 -1 +0
12: 19 -0 +1
13: 20 -1 +0
14: 21 -0 +1
"
    );
    Ok(())
}

// A request of three messages is one update, with the records of all, and makes one version.
#[test]
fn joined_messages(rt: HostRuntime) -> Result<(), Fail> {
    let alloc: Global = rt.alloc();
    let journal = joined_journal_of(alloc, ZONE, &[ADD_A, ADD_B, ADD_MORE])?;
    let start = recover_zone(alloc, ZONE.as_bytes(), &journal)?;
    assert_eq!(rt;
        lines_of(alloc, &start)?.as_str(),
        "0: 7 -0 +0\n1: 8 -0 +2\n"
    );
    assert_eq!(rt;
        write_zone(alloc, start.newest.last.zone())?.as_str(),
        "example. 3600 IN SOA ns.example. host.example. 8 1 1 1 1
example. 3600 IN NS ns.example.
a.example. 300 IN A 192.0.2.1
a.example. 300 IN A 192.0.2.3
b.example. 300 IN A 192.0.2.2
"
    );
    Ok(())
}

/// A version of the tests. `changed`: its changes to the one before, as the SOA before, the records that it deleted, an empty line, and the
/// records that it added. `zone`: its zone. `after`: the batches after it; of the batch within which it is made, the rest.
#[derive(Drop)]
struct VersionCase {
    changed: &'static str,
    zone: &'static str,
    after: &'static [&'static [&'static str]],
}

/// The versions of five updates in three batches.
const VERSION_CASES: [VersionCase; 6] = [
    VersionCase {
        changed: "",
        zone: ZONE,
        after: &[&[ADD_A], &[ADD_B, ADD_MORE, DELETE_B], &[DELETE_A]],
    },
    VersionCase {
        changed: "example. 3600 IN SOA ns.example. host.example. 7 1 1 1 1

a.example. 300 IN A 192.0.2.1
",
        zone: "example. 3600 IN SOA ns.example. host.example. 8 1 1 1 1
example. 3600 IN NS ns.example.
a.example. 300 IN A 192.0.2.1
",
        after: &[&[ADD_B, ADD_MORE, DELETE_B], &[DELETE_A]],
    },
    VersionCase {
        changed: "example. 3600 IN SOA ns.example. host.example. 8 1 1 1 1

b.example. 300 IN A 192.0.2.2
",
        zone: "example. 3600 IN SOA ns.example. host.example. 9 1 1 1 1
example. 3600 IN NS ns.example.
a.example. 300 IN A 192.0.2.1
b.example. 300 IN A 192.0.2.2
",
        after: &[&[ADD_MORE, DELETE_B], &[DELETE_A]],
    },
    VersionCase {
        changed: "example. 3600 IN SOA ns.example. host.example. 9 1 1 1 1

a.example. 300 IN A 192.0.2.3
",
        zone: "example. 3600 IN SOA ns.example. host.example. 10 1 1 1 1
example. 3600 IN NS ns.example.
a.example. 300 IN A 192.0.2.1
a.example. 300 IN A 192.0.2.3
b.example. 300 IN A 192.0.2.2
",
        after: &[&[DELETE_B], &[DELETE_A]],
    },
    VersionCase {
        changed: "example. 3600 IN SOA ns.example. host.example. 10 1 1 1 1
b.example. 300 IN A 192.0.2.2

",
        zone: "example. 3600 IN SOA ns.example. host.example. 11 1 1 1 1
example. 3600 IN NS ns.example.
a.example. 300 IN A 192.0.2.1
a.example. 300 IN A 192.0.2.3
",
        after: &[&[DELETE_A]],
    },
    VersionCase {
        changed: "example. 3600 IN SOA ns.example. host.example. 11 1 1 1 1
a.example. 300 IN A 192.0.2.1
a.example. 300 IN A 192.0.2.3

",
        zone: "example. 3600 IN SOA ns.example. host.example. 12 1 1 1 1
example. 3600 IN NS ns.example.
",
        after: &[],
    },
];

/// Appends a version to a text: its number, its changes to the one before it, and its zone.
fn put_version(alloc: Global, text: &mut String, version: &Version) -> Result<(), AllocError> {
    text.push_str(format!(in alloc; "version {}\n", version.number())?.as_str())?;
    if let Some(delta) = version.delta() {
        write_set(text, delta.old_soa())?;
        for set in delta.deletions() {
            write_set(text, set)?;
        }
        text.push('\n')?;
        for set in delta.additions() {
            write_set(text, set)?;
        }
    }
    text.push_str(&write_zone(alloc, version.zone())?)
}

/// The versions of a start, as text.
fn versions_of(alloc: Global, start: &Recovery) -> Result<String, AllocError> {
    let mut text = String::new(alloc);
    for version in &start.newest.older {
        put_version(alloc, &mut text, version)?;
    }
    put_version(alloc, &mut text, &start.newest.last)?;
    Ok(text)
}

/// The versions of the tests from `first` on, as text. The first of them has the number 0 and no changes.
fn versions_from(alloc: Global, first: usize) -> Result<String, AllocError> {
    let mut text = String::new(alloc);
    for (number, place) in VERSION_CASES.iter().skip(first).enumerate() {
        text.push_str(format!(in alloc; "version {number}\n")?.as_str())?;
        if number > 0 {
            text.push_str(place.changed)?;
        }
        text.push_str(place.zone)?;
    }
    Ok(text)
}

// A compaction after each number of the five updates, also within a batch: a start from the store that is created there has the versions after
// it, each with its changes.
#[test]
fn each_place(rt: HostRuntime) -> Result<(), Fail> {
    let alloc: Global = rt.alloc();
    for (first, place) in VERSION_CASES.iter().enumerate() {
        let start = start_of(alloc, place.zone, place.after)?;
        assert_eq!(rt;
            versions_of(alloc, &start)?,
            versions_from(alloc, first)?,
            "after {first}"
        );
    }
    Ok(())
}
