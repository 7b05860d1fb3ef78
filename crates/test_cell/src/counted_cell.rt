//! Cells of counted values that no type names, and their end.
ghost use Rattle.std.specs.Prelude.{◌≡◌, IfOk};
ghost use Rattle.std.specs.List.{All};

use crate::counted::{Counted, Rising, Tally};
use snapshot_cell::{Cell, NewFault, Parts, Publisher, Reader, StillOut, Strong};
use std::alloc::Global;
use std::process::Abort;
use std::sync::Arc;

/// How many values are published at most.
pub(crate) const MOST: u64 = 1_000_000;

/// How a cell begins.
#[derive(Clone, Copy)]
pub(crate) struct Terms {
    /// How many readers it has.
    pub(crate) readers: usize,
    /// How many grants each of them has, where that is limited.
    pub(crate) grants: Option<u64>,
    /// Of how many values the drops are counted.
    pub(crate) values: usize,
    /// The value that sleeps in its drop.
    pub(crate) sleeper: Option<u64>,
}

/// What isn't let go, of a version that is loaded.
#[derive(Clone, Copy)]
pub(crate) enum Leak {
    /// Nothing.
    Nothing,
    /// Its owner.
    Strong,
    /// A weak owner.
    Weak,
}

/// A cell with its publisher, its readers, and those that aren't given back at its end.
pub(crate) struct CountedCell {
    pub(crate) cell: Cell<Counted, Rising>,
    pub(crate) publisher: Publisher<Counted, Rising>,
    pub(crate) readers: Vec<Reader<Counted>>,
    pub(crate) missing: Vec<Reader<Counted>>,
    pub(crate) tally: Arc<Tally>,
    ghost publishes: { publisher.cell ≡ cell },
    ghost numbered: { publisher.value.number ≡ publisher.number },
    ghost reads: { All (λ r. r.cell ≡ cell) readers.items },
    ghost misses: { All (λ r. r.cell ≡ cell) missing.items },
}

/// A cell that nobody has loaded yet.
pub(crate) fn new_cell(
    alloc: Global,
    readers: usize,
    grants: Option<u64>,
    tally: Arc<Tally>,
) -> Result<Parts<Counted, Rising>, NewFault>
    ensures publisher { IfOk result (λ parts. (parts.publisher.cell ≡ parts.cell) × (parts.publisher.value.number ≡ parts.publisher.number)) }
    ensures readers { IfOk result (λ parts. All (λ r. r.cell ≡ parts.cell) parts.readers.items) }
{
    let first = Counted { number: 0, tally };
    match grants {
        Some(grants) => Cell::new_limited(alloc, readers, first, grants),
        None => Cell::new(alloc, readers, first),
    }
}

/// The last version's owner, which a reader loads.
fn draw<'a, R: Abort>(
    rt: &R,
    cell: &'a Cell<Counted, Rising>,
    reader: &mut Reader<Counted>,
) -> Strong<'a, Counted, Rising>
    requires { reader.old.cell ≡ cell.now }
    ensures reader { reader.new.cell ≡ reader.old.cell }
    ensures owner { result.table ≡ cell.now }
{
    match cell.load(reader) {
        Ok(owner) => owner,
        Err(_) => panic!(rt; "the reader is spent"),
    }
}

/// A reader loads the last version, whose owner is let go, or leaves something that never is.
fn load_by<R: Abort>(
    rt: &R,
    alloc: Global,
    cell: &Cell<Counted, Rising>,
    publisher: &mut Publisher<Counted, Rising>,
    reader: &mut Reader<Counted>,
    leak: Leak,
)
    requires { (publisher.old.cell ≡ cell.now) × (reader.old.cell ≡ cell.now) }
    ensures publisher { (publisher.new.cell ≡ cell.now) × (publisher.new.number ≡ publisher.old.number) × (publisher.new.value ≡ publisher.old.value) }
    ensures reader { reader.new.cell ≡ cell.now }
{
    let mut owner = draw(rt, cell, reader);
    let number = owner.number();
    assert!(rt; number == publisher.last_number() && owner.get().number == number);
    match leak {
        Leak::Nothing => {}
        Leak::Strong => {
            Box::leak(Box::new(alloc, owner).ok().expect(rt, "memory"));
        }
        Leak::Weak => {
            let Ok(weak) = publisher.downgrade(&mut owner) else {
                panic!(rt; "there is no weak owner");
            };
            Box::leak(Box::new(alloc, weak).ok().expect(rt, "memory"));
        }
    }
}

impl CountedCell {
    /// A cell that nobody has loaded yet. None where there is no memory: its first value is then dropped.
    fn tried<R: Abort>(rt: &R, alloc: Global, terms: Terms) -> Option<CountedCell> {
        let tally = Tally::shared(alloc, terms.values, terms.sleeper)?;
        let shared = Arc::try_clone(&tally).ok()?;
        let made: Result<_, _> = new_cell(alloc, terms.readers, terms.grants, shared);
        match made {
            Ok(
                Parts {
                    cell,
                    publisher,
                    readers,
                },
            ) => Some(CountedCell {
                cell,
                publisher,
                readers,
                missing: Vec::new(alloc),
                tally,
            }),
            Err(fault) => {
                assert!(rt; fault == NewFault::NoMemory && tally.were_dropped_once(1));
                None
            }
        }
    }

    /// A cell that nobody has loaded yet, made again where its first making finds no memory.
    pub(crate) fn of<R: Abort>(rt: &R, alloc: Global, terms: Terms) -> CountedCell {
        if let Some(counted_cell) = CountedCell::tried(rt, alloc, terms) {
            return counted_cell;
        }
        CountedCell::tried(rt, alloc, terms).expect(rt, "memory")
    }

    /// Publishes the next value; the owner of the version before it is let go.
    pub(crate) fn publish<R: Abort>(&mut self, rt: &R) {
        let last = self.publisher.last_number();
        assert!(rt; last < MOST);
        let value = Counted {
            number: last + 1,
            tally: Arc::try_clone(&self.tally).expect(rt, "memory"),
        };
        let Ok(old) = self.cell.publish(&mut self.publisher, value) else {
            panic!(rt; "there is no slot");
        };
        assert_eq!(rt; old.number(), last);
    }

    /// A reader loads the last version, whose owner is let go, or leaves something that never is.
    pub(crate) fn load<R: Abort>(&mut self, rt: &R, alloc: Global, leak: Leak) {
        let mut reader = self.readers.pop().expect(rt, "a reader");
        load_by(
            rt,
            alloc,
            &self.cell,
            &mut self.publisher,
            &mut reader,
            leak,
        );
        self.readers.push(reader).ok().expect(rt, "memory");
    }

    /// A reader is not given back.
    pub(crate) fn keep_back<R: Abort>(&mut self, rt: &R) {
        let reader = self.readers.pop().expect(rt, "a reader");
        self.missing.push(reader).ok().expect(rt, "memory");
    }

    /// A reader that wasn't given back is.
    pub(crate) fn give_back<R: Abort>(&mut self, rt: &R) {
        let reader = self.missing.pop().expect(rt, "a reader");
        self.readers.push(reader).ok().expect(rt, "memory");
    }

    /// The value published last; or all as they were.
    fn close(self) -> Result<Counted, CountedCell> {
        let CountedCell {
            cell,
            publisher,
            readers,
            missing,
            tally,
        } = self;
        match cell.close(publisher, readers) {
            Ok(value) => Ok(value),
            Err(
                StillOut {
                    cell,
                    publisher,
                    readers,
                    in_use: _,
                },
            ) => Err(CountedCell {
                cell,
                publisher,
                readers,
                missing,
                tally,
            }),
        }
    }

    /// The cell can't be ended: all come back as they were, no value is dropped, and what is published goes on.
    pub(crate) fn goes_on<R: Abort>(self, rt: &R) -> CountedCell {
        let before = (
            self.publisher.last_number(),
            self.readers.len(),
            self.tally.drops(),
        );
        let Err(mut counted_cell) = self.close() else {
            panic!(rt; "the cell is ended");
        };
        let after = (
            counted_cell.publisher.last_number(),
            counted_cell.readers.len(),
            counted_cell.tally.drops(),
        );
        assert!(rt; after == before);
        counted_cell.publish(rt);
        counted_cell
    }

    /// The cell can be ended, and gives the value published last: it alone hasn't been dropped, and then it is.
    pub(crate) fn ends<R: Abort>(self, rt: &R) {
        let last = self.publisher.last_number();
        let tally = Arc::try_clone(&self.tally).expect(rt, "memory");
        match self.close() {
            Ok(value) => end_of(rt, value, last, &tally),
            Err(_) => panic!(rt; "the cell is in use"),
        }
    }
}

/// The value with which a cell ends is the one published last: it alone hasn't been dropped. Then it is.
pub(crate) fn end_of<R: Abort>(rt: &R, value: Counted, last: u64, tally: &Tally) {
    let below = value.number as usize;
    assert!(rt; value.number == last && tally.were_dropped_once(below));
    drop(value);
    assert!(rt; tally.were_dropped_once(below.wrapping_add(1)));
}
