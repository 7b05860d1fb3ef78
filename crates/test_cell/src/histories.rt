//! A cell of numbers with a history, in which steps are played.
ghost use Rattle.std.specs.Prelude.{◌≡◌, ◌≤◌};
ghost use Rattle.std.specs.List.{All};

use cell_core::Follows;
use dns_rdata::Serial;
use snapshot_cell::{
    Cell, NamedCell, NamedPublisher, NamedReader, NamedStrong, Names, Naming, Parts,
};
use std::alloc::Global;
use std::process::Abort;
use weak_history::{Chain, History, Owners};

/// Any numbers, in any order.
pub(crate) struct Any;

impl Follows<u64> for Any {
    ghost use Rattle.std.specs.Prelude.{ℕ};

    ghost follows = { λ value next. Unit {0} };
}

impl Names<u64> for Any {
    ghost begins = { λ value. Unit {0} };
}

/// A cell that begins with 0, with one reader to load and one to ask, which have so many grants each.
pub(crate) fn cell_parts<R: Abort>(rt: &R, alloc: Global, grants: u64) -> Parts<u64, Any>
    ensures publisher { result.publisher.cell ≡ result.cell }
    ensures readers { All (λ r. r.cell ≡ result.cell) result.readers.items }
{
    match Cell::<u64, Any>::new_limited(alloc, 2, 0, grants) {
        Ok(parts) => parts,
        Err(_) => panic!(rt; "there is no memory"),
    }
}

/// What a history tells of the versions after the one of a serial.
#[derive(Clone, Copy)]
pub(crate) enum Due {
    /// Owners of all, with these values, the oldest first.
    Whole(&'static [u64]),
    /// The one of this number has gone.
    Gone(u64),
    /// It doesn't know the serial.
    Unknown,
    /// The reader has too few grants.
    Spent,
}

/// What is done.
#[derive(Clone, Copy)]
pub(crate) enum Step {
    /// A number is published.
    Publish(u64),
    /// The version that was published last is told, with a serial, and its owner kept.
    Tell(u32),
    /// The history has so many entries.
    Len(usize),
    /// What it tells of the versions after the one of a serial, up to a number.
    Chain(u32, u64, Due),
    /// The reader that asks has so many grants left.
    Left(u64),
    /// An owner, of those kept, is let go, which buries the version of this number, or none.
    Release(usize, Option<u64>),
}

/// Who publishes in a cell, tells a history, and asks it.
#[derive(Drop)]
pub(crate) struct HistoryWriter<'a, N: Naming> {
    cell: &'a NamedCell<u64, Any, N>,
    publisher: NamedPublisher<u64, Any, N>,
    loads: NamedReader<u64, N>,
    asks: NamedReader<u64, N>,
    history: History<'a, u64, Any, N>,
    owners: Vec<Option<NamedStrong<'a, u64, Any, N>>>,
}

/// Whether owners have these values, the first one first.
fn are_of<N: Naming>(mut owners: Owners<'_, u64, Any, N>, values: &[u64]) -> bool {
    for value in values {
        match owners.take_first() {
            Some(owner) if owner.get() == value => {}
            _ => return false,
        }
    }
    owners.take_first().is_none()
}

/// Whether what is told is what is due.
fn is_due<N: Naming>(outcome: Chain<'_, u64, Any, N>, due: Due) -> bool {
    match (outcome, due) {
        (Chain::Whole(owners), Due::Whole(values)) => {
            owners.len() == values.len() && are_of(owners, values)
        }
        (Chain::Gone(gone), Due::Gone(number)) => gone == number,
        (Chain::Unknown, Due::Unknown) | (Chain::Spent, Due::Spent) => true,
        _ => false,
    }
}

impl<'a, N: Naming> HistoryWriter<'a, N> {
    /// Who tells a history of so many entries at most, with a reader to load and one to ask.
    pub(crate) fn new(
        alloc: Global,
        cell: &'a NamedCell<u64, Any, N>,
        publisher: NamedPublisher<u64, Any, N>,
        loads: NamedReader<u64, N>,
        asks: NamedReader<u64, N>,
        size: usize,
    ) -> HistoryWriter<'a, N>
        requires { size ≤ 16 }
    {
        HistoryWriter {
            cell,
            publisher,
            loads,
            asks,
            history: History::new(size),
            owners: Vec::new(alloc),
        }
    }

    /// Whether a number is published.
    fn publish(&mut self, value: u64) -> bool {
        if self.publisher.last_number() == u64::MAX {
            return false;
        }
        self.cell.publish(&mut self.publisher, value).is_ok()
    }

    /// Whether the version that was published last is told, with a serial.
    fn tell(&mut self, serial: u32) -> bool {
        let found = self
            .cell
            .newest_with_weak(&mut self.publisher, &mut self.loads);
        let Ok((owner, weak)) = found else {
            return false;
        };
        self.history.push(Serial(serial), weak);
        self.owners.push(Some(owner)).is_ok()
    }

    /// The number that is buried when an owner is let go.
    fn release(&mut self, at: usize) -> Option<u64> {
        let owner = self.owners.get_mut(at)?.take()?;
        owner.release().buried()
    }

    /// Whether a step goes as it says.
    fn goes(&mut self, step: Step) -> bool {
        match step {
            Step::Publish(value) => self.publish(value),
            Step::Tell(serial) => self.tell(serial),
            Step::Len(count) => self.history.len() == count,
            Step::Chain(from, upto, due) => {
                is_due(self.history.chain(Serial(from), upto, &mut self.asks), due)
            }
            Step::Left(grants) => self.asks.left() == grants,
            Step::Release(at, number) => self.release(at) == number,
        }
    }

    /// The first step that goes otherwise; None where there is none.
    pub(crate) fn first_wrong(&mut self, steps: &[Step]) -> Option<usize> {
        for (at, step) in steps.iter().enumerate() {
            if !self.goes(*step) {
                return Some(at);
            }
        }
        None
    }

    /// The publisher and the readers, when the history isn't told any more.
    pub(crate) fn end<R: Abort>(
        self,
        rt: &R,
        alloc: Global,
    ) -> (NamedPublisher<u64, Any, N>, Vec<NamedReader<u64, N>>) {
        let mut readers = Vec::new(alloc);
        readers.push(self.loads).ok().expect(rt, "memory");
        readers.push(self.asks).ok().expect(rt, "memory");
        (self.publisher, readers)
    }
}
