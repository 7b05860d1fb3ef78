//! What threads do with one cell, each of them a job.
use crate::counted::{Counted, Rising, Tally};
use crate::named::{CellWriter, TURNS};
use rtrb::Consumer;
use snapshot_cell::{NamedCell, NamedReader, NamedStrong, NamedWeak, Naming};
use std::process::Abort;
use std::sync::Arc;
use std::thread;
use std::thread::Threads;

/// One who is handed weak owners, and raises each of them once.
#[derive(Drop)]
pub(crate) struct Raiser<'a, N: Naming> {
    pub(crate) reader: NamedReader<Counted, N>,
    pub(crate) ring: Consumer<NamedWeak<'a, Counted, Rising, N>>,
    pub(crate) tally: Arc<Tally>,
}

/// One who loads and clones, and the number that it loaded last.
#[derive(Drop)]
pub(crate) struct Copier<'a, N: Naming> {
    pub(crate) cell: &'a NamedCell<Counted, Rising, N>,
    pub(crate) reader: NamedReader<Counted, N>,
    pub(crate) tally: Arc<Tally>,
    pub(crate) last: u64,
}

/// What a thread does, so many times.
#[derive(Drop)]
pub(crate) enum Job<'a, N: Naming> {
    /// Publishes all values up to this one, and hands weak owners out.
    Publish(CellWriter<'a, N>, u64),
    /// Raises so many weak owners.
    Raise(Raiser<'a, N>, u64),
    /// Loads and clones so often.
    Copy(Copier<'a, N>, u64),
    /// Releases an owner, which is the last one of its version.
    Release(NamedStrong<'a, Counted, Rising, N>, Arc<Tally>),
}

/// What a job gives back.
#[derive(Drop)]
pub(crate) enum Back<'a, N: Naming> {
    /// The publisher.
    Writer(CellWriter<'a, N>),
    /// A reader.
    Read(NamedReader<Counted, N>),
    /// Nothing.
    Released,
}

impl<'a, N: Naming> Raiser<'a, N> {
    /// Whether an upgrade gives an owner of that very version, or none. What it gives is let go, and so is the weak owner.
    fn raise(&mut self, mut weak: NamedWeak<'a, Counted, Rising, N>) -> bool {
        let number = weak.number();
        let is_right = match weak.upgrade(&mut self.reader) {
            Ok(Some(owner)) => {
                let is_right = owner.number() == number && owner.get().number == number;
                self.tally.let_go(owner);
                is_right
            }
            Ok(None) => {
                self.tally.sink(number);
                true
            }
            Err(_) => false,
        };
        weak.release();
        is_right
    }

    /// The reader, where so many weak owners came, and each went as it should.
    fn finish(mut self, weaks: u64) -> Option<Back<'a, N>> {
        let mut raised = 0u64;
        for _ in 0..TURNS {
            if raised == weaks {
                return Some(Back::Read(self.reader));
            }
            match self.ring.pop() {
                Ok(weak) => {
                    if !self.raise(weak) {
                        return None;
                    }
                    raised = raised.wrapping_add(1);
                }
                Err(_) => thread::yield_now(),
            }
        }
        None
    }
}

impl<'a, N: Naming> Copier<'a, N> {
    /// Whether a load gives an owner, and so does a clone of it, of the same version, which is there and none before the one that was loaded last.
    /// Both are let go.
    fn copy(&mut self) -> bool {
        let Ok(mut owner) = self.cell.load(&mut self.reader) else {
            return false;
        };
        let Ok(clone) = owner.clone_strong(&mut self.reader) else {
            return false;
        };
        owner.alive(&mut self.reader);
        let number = owner.number();
        let is_right = owner.get().number == number
            && clone.number() == number
            && clone.get().number == number
            && self.last <= number;
        self.last = number;
        self.tally.let_go(owner);
        self.tally.let_go(clone);
        is_right
    }

    /// Whether so many rounds go as they should.
    fn run(&mut self, rounds: u64) -> bool {
        for _ in 0..rounds {
            if !self.copy() {
                return false;
            }
        }
        true
    }
}

impl<'a, N: Naming> Job<'a, N> {
    /// What is given back, where all went as it should, and while the drop slept that is to sleep.
    fn run(self) -> Option<Back<'a, N>> {
        match self {
            Job::Publish(mut writer, up_to) => {
                writer.tally.wait();
                let is_right = writer.run(up_to);
                (writer.tally.call() && is_right).then_some(Back::Writer(writer))
            }
            Job::Raise(raiser, weaks) => raiser.finish(weaks),
            Job::Copy(mut copier, rounds) => {
                copier.tally.wait();
                let is_right = copier.run(rounds);
                (copier.tally.call() && is_right).then_some(Back::Read(copier.reader))
            }
            Job::Release(owner, tally) => {
                tally.let_go(owner);
                Some(Back::Released)
            }
        }
    }
}

/// Does each job on a thread of its own: what each gave back.
pub(crate) fn run_all<'a, R: Abort + Threads + Sync, N: Naming + Send + Sync>(
    rt: &R,
    jobs: Vec<Job<'a, N>>,
) -> Vec<Option<Back<'a, N>>> {
    thread::map_vec(rt, jobs, &Job::run)
        .ok()
        .expect(rt, "memory")
}
