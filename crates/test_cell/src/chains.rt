//! What a history tells.
ghost use Rattle.std.specs.Prelude.{◌≡◌, ◌≤◌};
ghost use Rattle.std.specs.List.{All};

use crate::histories::{Any, Due, HistoryWriter, Step, cell_parts};
use snapshot_cell::{NamedCell, NamedPublisher, NamedReader, Naming, Parts};
use std::alloc::Global;
use std::marker::Brand;
use std::process::Abort;

/// Steps, in a cell whose readers have so many grants, with a history of so many entries at most, and the value that is published last.
#[derive(Clone, Copy)]
struct Play {
    grants: u64,
    size: usize,
    steps: &'static [Step],
    last: u64,
}

/// Plays steps in a cell, which is ended then.
fn play_in<R: Abort, N: Naming>(rt: &R, alloc: Global, parts: Parts<u64, Any>, play: Play)
    requires cell { (parts.cell ≡ N.cell) × (parts.publisher.cell ≡ N.cell) }
    requires readers { All (λ r. r.cell ≡ N.cell) parts.readers.items }
    requires size { play.size ≤ 16 }
{
    let Parts {
        cell,
        publisher,
        mut readers,
    } = parts;
    let loads = NamedReader::of(readers.pop().expect(rt, "a reader"));
    let asks = NamedReader::of(readers.pop().expect(rt, "a reader"));
    let cell: NamedCell<u64, Any, N> = NamedCell::of(cell);
    let publisher = NamedPublisher::of(publisher);
    let mut writer = HistoryWriter::new(alloc, &cell, publisher, loads, asks, play.size);
    assert_eq!(rt; writer.first_wrong(play.steps), None);
    let (publisher, readers) = writer.end(rt, alloc);
    match cell.close(publisher, readers) {
        Ok(value) => assert_eq!(rt; value, play.last),
        Err(_) => panic!(rt; "an owner is out"),
    }
}

/// Plays steps in a cell of its own.
fn played<R: Abort>(rt: &R, alloc: Global, play: Play) {
    assert!(rt; play.size <= 16);
    let parts = cell_parts(rt, alloc, play.grants);
    play_in::<R, Brand>(rt, alloc, parts, play);
}

/// What is told while versions of the serials 10 to 13 are there, and when they have gone.
const FOUR_VERSIONS: Play = Play {
    grants: u64::MAX,
    size: 16,
    steps: &[
        Step::Tell(10),
        Step::Publish(100),
        Step::Tell(11),
        Step::Publish(200),
        Step::Tell(12),
        Step::Publish(300),
        Step::Tell(13),
        Step::Len(4),
        Step::Chain(10, 3, Due::Whole(&[100, 200, 300])),
        Step::Chain(11, 3, Due::Whole(&[200, 300])),
        Step::Chain(11, 2, Due::Whole(&[200])),
        Step::Chain(13, 3, Due::Whole(&[])),
        Step::Chain(9, 3, Due::Unknown),
        Step::Chain(13, 2, Due::Unknown),
        Step::Release(1, Some(1)),
        Step::Chain(10, 3, Due::Gone(1)),
        Step::Chain(11, 3, Due::Whole(&[200, 300])),
        Step::Release(0, Some(0)),
        Step::Chain(10, 3, Due::Gone(1)),
        Step::Release(2, Some(2)),
        Step::Chain(11, 3, Due::Gone(2)),
        Step::Chain(12, 3, Due::Whole(&[300])),
        Step::Release(3, None),
        Step::Chain(12, 3, Due::Whole(&[300])),
    ],
    last: 300,
};

#[test]
fn chains_of_four_versions(rt: HostRuntime) {
    played(&rt, rt.alloc(), FOUR_VERSIONS);
}

/// Entries leave: there are two at most, of serials that are less than half the ring apart (RFC 1982, 3.2). The distance from 0 to 2^31 - 1 fits, and with
/// one more it doesn't; half the ring further on the others leave.
const TWO_ENTRIES: Play = Play {
    grants: u64::MAX,
    size: 2,
    steps: &[
        Step::Tell(0),
        Step::Publish(1),
        Step::Tell(0x7fff_ffff),
        Step::Len(2),
        Step::Chain(0, 1, Due::Whole(&[1])),
        Step::Publish(2),
        Step::Tell(0x8000_0000),
        Step::Len(2),
        Step::Chain(0, 2, Due::Unknown),
        Step::Chain(0x7fff_ffff, 2, Due::Whole(&[2])),
        Step::Publish(3),
        Step::Tell(0),
        Step::Len(1),
        Step::Chain(0x8000_0000, 3, Due::Unknown),
        Step::Chain(0, 3, Due::Whole(&[])),
        Step::Release(0, Some(0)),
        Step::Release(1, Some(1)),
        Step::Release(2, Some(2)),
        Step::Release(3, None),
    ],
    last: 3,
};

#[test]
fn entries_that_leave(rt: HostRuntime) {
    played(&rt, rt.alloc(), TWO_ENTRIES);
}

/// A history of no entries knows of none.
const NO_ENTRIES: Play = Play {
    grants: u64::MAX,
    size: 0,
    steps: &[
        Step::Tell(1),
        Step::Release(0, None),
        Step::Len(0),
        Step::Chain(1, 0, Due::Unknown),
    ],
    last: 0,
};

#[test]
fn history_of_none(rt: HostRuntime) {
    played(&rt, rt.alloc(), NO_ENTRIES);
}

/// A chain for which a reader has too few grants is told so, and holds no version (own): of four grants three are taken by what is told of three versions,
/// and one by the first of the two that are asked for then, whose owner is let go. What wants no grant is told as before, and nobody else owns a version.
const FOUR_GRANTS: Play = Play {
    grants: 4,
    size: 16,
    steps: &[
        Step::Tell(10),
        Step::Publish(100),
        Step::Tell(11),
        Step::Publish(200),
        Step::Tell(12),
        Step::Publish(300),
        Step::Tell(13),
        Step::Chain(10, 3, Due::Whole(&[100, 200, 300])),
        Step::Left(1),
        Step::Chain(11, 3, Due::Spent),
        Step::Left(0),
        Step::Chain(12, 3, Due::Spent),
        Step::Chain(13, 3, Due::Whole(&[])),
        Step::Chain(9, 3, Due::Unknown),
        Step::Release(2, Some(2)),
        Step::Release(1, Some(1)),
        Step::Release(0, Some(0)),
        Step::Release(3, None),
    ],
    last: 300,
};

#[test]
fn no_grant_is_no_chain(rt: HostRuntime) {
    played(&rt, rt.alloc(), FOUR_GRANTS);
}
