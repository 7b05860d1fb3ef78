//! How a cell begins, and its end, also of one that is still in use: then all come back, and go on.
use crate::counted::Tally;
use crate::counted_cell::{CountedCell, Leak, Terms, new_cell};
use crate::crew::shared;
use snapshot_cell::NewFault;
use std::alloc::Global;
use std::process::Abort;

/// A cell of two readers.
const TWO: Terms = Terms {
    readers: 2,
    grants: None,
    values: 10,
    sleeper: None,
};

// A cell that nobody has loaded gives its first value, with no reader and with as many as there may be (own).
#[test]
fn first_value_comes_back(rt: HostRuntime) {
    for readers in [0, 2, 3, 64] {
        CountedCell::of(&rt, rt.alloc(), Terms { readers, ..TWO }).ends(&rt);
    }
}

// Each growth refused in turn: a cell that isn't made drops its first value, once, and can be made again. What it does then takes no memory: it
// is loaded and published, and the value published last comes back.
#[test]
fn last_value_comes_back_refused_growth(rt: HostRuntime) {
    let mut counted_cell = CountedCell::of(&rt, rt.alloc(), TWO);
    counted_cell.load(&rt, rt.alloc(), Leak::Nothing);
    counted_cell.publish(&rt);
    counted_cell.load(&rt, rt.alloc(), Leak::Nothing);
    for _ in 0..5 {
        counted_cell.publish(&rt);
    }
    counted_cell.load(&rt, rt.alloc(), Leak::Nothing);
    counted_cell.ends(&rt);
}

// With a reader or two missing the cell goes on, also by the readers that were given back; with none missing it is ended.
#[test]
fn readers_are_missing(rt: HostRuntime) {
    let mut counted_cell = CountedCell::of(&rt, rt.alloc(), TWO);
    counted_cell.keep_back(&rt);
    counted_cell = counted_cell.goes_on(&rt);
    counted_cell.load(&rt, rt.alloc(), Leak::Nothing);
    counted_cell.keep_back(&rt);
    counted_cell = counted_cell.goes_on(&rt);
    counted_cell.give_back(&rt);
    counted_cell = counted_cell.goes_on(&rt);
    counted_cell.load(&rt, rt.alloc(), Leak::Nothing);
    counted_cell.give_back(&rt);
    counted_cell.load(&rt, rt.alloc(), Leak::Nothing);
    counted_cell.ends(&rt);
}

/// While a version has an owner that is never let go, a weak one or not, the last version or one before it, the cell goes on with all readers, and
/// so many values are dropped when two are published after it. An owner borrows its cell, so only one that is never let go is there then, and such
/// a cell can't be ended: the test ends by a panic that says so.
fn go_on_beside<R: Abort>(rt: &R, alloc: Global, leak: Leak, drops: u64) {
    let mut counted_cell = CountedCell::of(rt, alloc, TWO);
    counted_cell.load(rt, alloc, leak);
    counted_cell = counted_cell.goes_on(rt);
    counted_cell.load(rt, alloc, Leak::Nothing);
    counted_cell = counted_cell.goes_on(rt);
    counted_cell.load(rt, alloc, Leak::Nothing);
    assert_eq!(rt; counted_cell.tally.drops(), drops);
    panic!(rt; "an owner is out")
}

// A version that has an owner isn't dropped.
#[test]
#[should_panic(expected = "an owner is out")]
fn owner_is_out(rt: HostRuntime) {
    go_on_beside(&rt, rt.alloc(), Leak::Strong, 1);
}

// One that has a weak owner alone is.
#[test]
#[should_panic(expected = "an owner is out")]
fn weak_owner_is_out(rt: HostRuntime) {
    go_on_beside(&rt, rt.alloc(), Leak::Weak, 2);
}

// Each growth refused in turn: more readers than a cell may have are refused, whatever their grants, and the first value is dropped, once.
#[test]
fn too_many_readers_refused_growth(rt: HostRuntime) {
    for grants in [None, Some(3)] {
        let tally = match Tally::shared(rt.alloc(), 1, None) {
            Some(tally) => tally,
            None => Tally::shared(rt.alloc(), 1, None).expect(&rt, "memory"),
        };
        let made: Result<_, _> = new_cell(rt.alloc(), 65, grants, shared(&rt, &tally));
        match made {
            Ok(_) => panic!(rt; "a cell of 65 readers"),
            Err(fault) => {
                assert!(rt; fault == NewFault::TooManyReaders && tally.were_dropped_once(1));
            }
        }
    }
}

/// The grants that a reader has of a cell whose readers are to have so many.
fn grants_of<R: Abort>(rt: &R, alloc: Global, grants: Option<u64>) -> u64 {
    let counted_cell = CountedCell::of(rt, alloc, Terms { grants, ..TWO });
    let left = counted_cell.readers.first().expect(rt, "a reader").left();
    counted_cell.ends(rt);
    left
}

// 2^40 grants are what a reader has of a cell that isn't limited, and more count as so many (own).
#[test]
fn grants_from_none_to_2_to_the_40(rt: HostRuntime) {
    const ALL: u64 = 1 << 40;
    assert_eq!(rt; grants_of(&rt, rt.alloc(), None), ALL);
    for grants in [0, 1, 3, ALL - 1, ALL, ALL + 1, u64::MAX] {
        assert_eq!(rt; grants_of(&rt, rt.alloc(), Some(grants)), grants.min(ALL));
    }
}
