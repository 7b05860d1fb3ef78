//! A cell that a type names, with those who are at it.
ghost use Rattle.std.specs.Prelude.{◌≡◌};
ghost use Rattle.std.specs.List.{All};

use crate::counted::{Counted, Rising, Tally};
use crate::counted_cell::{CountedCell, MOST, end_of};
use rtrb::{Producer, PushError};
use snapshot_cell::{
    NamedCell, NamedPublisher, NamedReader, NamedStillOut, NamedStrong, NamedWeak, Naming, Reader,
};
use std::alloc::Global;
use std::process::Abort;
use std::sync::Arc;
use std::thread;

/// How often one who finds no slot, no room in a ring or nothing in it goes on, at most.
pub(crate) const TURNS: u64 = 10_000_000;

/// A cell that a type names, with its publisher and its readers.
pub(crate) struct Named<N: Naming> {
    pub(crate) cell: NamedCell<Counted, Rising, N>,
    pub(crate) publisher: NamedPublisher<Counted, Rising, N>,
    pub(crate) readers: Vec<NamedReader<Counted, N>>,
    pub(crate) tally: Arc<Tally>,
    ghost numbered: { publisher.value.number ≡ publisher.number },
}

/// Readers of the cell of this name.
fn readers_named<R: Abort, N: Naming>(
    rt: &R,
    alloc: Global,
    readers: Vec<Reader<Counted>>,
) -> Vec<NamedReader<Counted, N>>
    requires { All (λ r. r.cell ≡ N.cell) readers.items }
{
    let mut named = Vec::new(alloc);
    for reader in readers {
        named
            .push(NamedReader::of(reader))
            .ok()
            .expect(rt, "memory");
    }
    named
}

impl<N: Naming> Named<N> {
    /// The cell of this name.
    pub(crate) fn of<R: Abort>(rt: &R, alloc: Global, counted_cell: CountedCell) -> Named<N>
        requires { counted_cell.cell ≡ N.cell }
    {
        let CountedCell {
            cell,
            publisher,
            readers,
            missing: _,
            tally,
        } = counted_cell;
        Named {
            cell: NamedCell::of(cell),
            publisher: NamedPublisher::of(publisher),
            readers: readers_named(rt, alloc, readers),
            tally,
        }
    }

    /// A reader loads the last version, whose owner is never let go.
    fn leak<R: Abort>(&mut self, rt: &R, alloc: Global) {
        let mut reader = self.readers.pop().expect(rt, "a reader");
        let owner = self.cell.load(&mut reader).ok().expect(rt, "an owner");
        Box::leak(Box::new(alloc, owner).ok().expect(rt, "memory"));
        self.readers.push(reader).ok().expect(rt, "memory");
    }

    /// The cell can't be ended with so many of its readers: all come back as they were, and no value is dropped.
    fn goes_on<R: Abort>(self, rt: &R) -> Named<N> {
        let Named {
            cell,
            publisher,
            readers,
            tally,
        } = self;
        let count = readers.len();
        let Err(
            NamedStillOut {
                cell,
                publisher,
                readers,
                in_use: _,
            },
        ) = cell.close(publisher, readers)
        else {
            panic!(rt; "the cell is ended");
        };
        assert!(rt; readers.len() == count && tally.drops() == 0);
        Named {
            cell,
            publisher,
            readers,
            tally,
        }
    }

    /// The cell can't be ended with a reader missing, or with an owner out that is never let go: all come back as they were.
    pub(crate) fn in_use<R: Abort>(mut self, rt: &R, alloc: Global, leaks: bool) -> Named<N> {
        if leaks {
            self.leak(rt, alloc);
            return self.goes_on(rt);
        }
        let missing = self.readers.pop().expect(rt, "a reader");
        let mut named = self.goes_on(rt);
        named.readers.push(missing).ok().expect(rt, "memory");
        named
    }
}

/// The cell can be ended, and gives the value published last: it alone hasn't been dropped, and then it is.
pub(crate) fn end<R: Abort, N: Naming>(
    rt: &R,
    cell: NamedCell<Counted, Rising, N>,
    publisher: NamedPublisher<Counted, Rising, N>,
    readers: Vec<NamedReader<Counted, N>>,
    tally: &Tally,
) {
    let last = publisher.last_number();
    match cell.close(publisher, readers) {
        Ok(value) => end_of(rt, value, last, tally),
        Err(_) => panic!(rt; "the cell is in use"),
    }
}

/// A publisher at its cell, with a ring to each of those who get weak owners, and the value that is due when none was published for want of a
/// slot.
#[derive(Drop)]
pub(crate) struct CellWriter<'a, N: Naming> {
    pub(crate) cell: &'a NamedCell<Counted, Rising, N>,
    pub(crate) publisher: NamedPublisher<Counted, Rising, N>,
    pub(crate) tally: Arc<Tally>,
    pub(crate) due: Option<Counted>,
    pub(crate) rings: Vec<Producer<NamedWeak<'a, Counted, Rising, N>>>,
    ghost numbered: { publisher.value.number ≡ publisher.number },
}

/// Whether the weak owner goes into the ring, when there is room.
fn push_weak<'a, N: Naming>(
    ring: &mut Producer<NamedWeak<'a, Counted, Rising, N>>,
    weak: NamedWeak<'a, Counted, Rising, N>,
) -> bool {
    let mut left = weak;
    for _ in 0..TURNS {
        match ring.push(left) {
            Ok(()) => return true,
            Err(PushError::Full(weak)) => left = weak,
        }
        thread::yield_now();
    }
    false
}

impl<'a, N: Naming> CellWriter<'a, N> {
    /// A publisher that sends no weak owners yet.
    pub(crate) fn new(
        alloc: Global,
        cell: &'a NamedCell<Counted, Rising, N>,
        publisher: NamedPublisher<Counted, Rising, N>,
        tally: Arc<Tally>,
    ) -> CellWriter<'a, N>
        requires { publisher.value.number ≡ publisher.number }
    {
        CellWriter {
            cell,
            publisher,
            tally,
            due: None,
            rings: Vec::new(alloc),
        }
    }

    /// The publisher, which leaves its cell.
    pub(crate) fn into_publisher(self) -> NamedPublisher<Counted, Rising, N> {
        self.publisher
    }

    /// One publication, of the value that is due: the old version's owner. None where there was no slot.
    pub(crate) fn publish(&mut self) -> Option<NamedStrong<'a, Counted, Rising, N>> {
        let last = self.publisher.last_number();
        if last >= MOST {
            return None;
        }
        let value = match self.due.take() {
            Some(value) => value,
            None => Counted {
                number: last + 1,
                tally: Arc::try_clone(&self.tally).ok()?,
            },
        };
        if value.number != last + 1 {
            return None;
        }
        match self.cell.publish(&mut self.publisher, value) {
            Ok(old) => Some(old),
            Err(refused) => {
                self.due = Some(refused.value);
                None
            }
        }
    }

    /// A weak owner of an owner's version.
    pub(crate) fn downgrade(
        &mut self,
        owner: &mut NamedStrong<'a, Counted, Rising, N>,
    ) -> Option<NamedWeak<'a, Counted, Rising, N>> {
        self.publisher.downgrade(owner).ok()
    }

    /// Whether a weak owner of an owner's version goes into the ring at this place.
    fn push_weak_at(
        &mut self,
        place: usize,
        owner: &mut NamedStrong<'a, Counted, Rising, N>,
    ) -> bool {
        match (self.downgrade(owner), self.rings.get_mut(place)) {
            (Some(weak), Some(ring)) => push_weak(ring, weak),
            _ => false,
        }
    }

    /// Whether a weak owner of an owner's version goes into each ring. Then the owner is let go.
    fn share(&mut self, mut owner: NamedStrong<'a, Counted, Rising, N>) -> bool {
        for place in 0..self.rings.len() {
            if !self.push_weak_at(place, &mut owner) {
                return false;
            }
        }
        self.tally.let_go(owner);
        true
    }

    /// Whether all values up to this one are published, each in turn, and weak owners of each old version are handed over. Where there is no slot it
    /// goes on with the same value.
    pub(crate) fn run(&mut self, up_to: u64) -> bool {
        for _ in 0..TURNS {
            if self.publisher.last_number() >= up_to {
                return true;
            }
            match self.publish() {
                Some(old) => {
                    if !self.share(old) {
                        return false;
                    }
                }
                None => thread::yield_now(),
            }
        }
        false
    }
}
