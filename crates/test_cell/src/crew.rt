//! Those who are at one cell, on threads of their own for a while.
use crate::counted::{Counted, Rising, Tally};
use crate::jobs::{Back, Copier, Job, Raiser, run_all};
use crate::named::CellWriter;
use rtrb::RingBuffer;
use snapshot_cell::{NamedReader, NamedStrong, NamedWeak, Naming};
use std::alloc::Global;
use std::process::Abort;
use std::sync::Arc;
use std::thread::Threads;

/// How many weak owners a ring has room for.
const ROOM: usize = 16;

/// How threads go on at one cell: one publishes, some raise weak owners, and the other readers load and clone.
#[derive(Clone, Copy)]
pub(crate) struct Crew {
    /// How many values are published.
    pub(crate) values: u64,
    /// How many raise weak owners, one of each old version.
    pub(crate) raisers: usize,
    /// How often each of the others loads.
    pub(crate) copies: u64,
    /// Whether one more releases the last owner of version 0.
    pub(crate) releases: bool,
}

/// A cell's publisher and its readers.
#[derive(Drop)]
pub(crate) struct Players<'a, N: Naming> {
    pub(crate) writer: CellWriter<'a, N>,
    pub(crate) readers: Vec<NamedReader<Counted, N>>,
}

/// Another one who shares the tally.
pub(crate) fn shared<R: Abort>(rt: &R, tally: &Arc<Tally>) -> Arc<Tally> {
    Arc::try_clone(tally).expect(rt, "memory")
}

/// A job for a reader: it raises weak owners where there is one more to do so, and then has a ring.
fn job_of<'a, R: Abort, N: Naming>(
    rt: &R,
    alloc: Global,
    writer: &mut CellWriter<'a, N>,
    crew: Crew,
    reader: NamedReader<Counted, N>,
) -> Job<'a, N> {
    let tally = shared(rt, &writer.tally);
    if writer.rings.len() == crew.raisers {
        let copier = Copier {
            cell: writer.cell,
            reader,
            tally,
            last: 0,
        };
        return Job::Copy(copier, crew.copies);
    }
    let (producer, ring) = RingBuffer::<NamedWeak<'a, Counted, Rising, N>>::new(alloc, ROOM)
        .ok()
        .expect(rt, "memory");
    writer.rings.push(producer).ok().expect(rt, "memory");
    let raiser = Raiser {
        reader,
        ring,
        tally,
    };
    Job::Raise(raiser, crew.values)
}

impl<'a, N: Naming> Players<'a, N> {
    /// The last owner of the last version, after which one more is published.
    fn last_owner<R: Abort>(&mut self, rt: &R) -> NamedStrong<'a, Counted, Rising, N> {
        let mut reader = self.readers.pop().expect(rt, "a reader");
        let owner = self
            .writer
            .cell
            .load(&mut reader)
            .ok()
            .expect(rt, "an owner");
        self.readers.push(reader).ok().expect(rt, "memory");
        let old = self.writer.publish().expect(rt, "a slot");
        assert!(rt; old.release().buried() == None);
        owner
    }

    /// A job for each.
    fn jobs<R: Abort>(mut self, rt: &R, alloc: Global, crew: Crew) -> Vec<Job<'a, N>> {
        let mut jobs = Vec::new(alloc);
        if crew.releases {
            let job = Job::Release(self.last_owner(rt), shared(rt, &self.writer.tally));
            jobs.push(job).ok().expect(rt, "memory");
        }
        let Players {
            mut writer,
            readers,
        } = self;
        for reader in readers {
            let job = job_of(rt, alloc, &mut writer, crew, reader);
            jobs.push(job).ok().expect(rt, "memory");
        }
        let job = Job::Publish(writer, crew.values);
        jobs.push(job).ok().expect(rt, "memory");
        jobs
    }
}

/// The publisher and the readers.
fn gather<'a, R: Abort, N: Naming>(
    rt: &R,
    alloc: Global,
    all: Vec<Option<Back<'a, N>>>,
) -> Players<'a, N> {
    let mut readers = Vec::new(alloc);
    let mut last = None;
    for back in all {
        match back.expect(rt, "each played as it should") {
            Back::Writer(writer) => last = Some(writer),
            Back::Read(reader) => readers.push(reader).ok().expect(rt, "memory"),
            Back::Released => {}
        }
    }
    Players {
        writer: last.expect(rt, "a publisher"),
        readers,
    }
}

/// All play on threads of their own. Each version but the last is then buried, by one release, and dropped once, and each upgrade that gave none is of one
/// of those.
pub(crate) fn play<'a, R: Abort + Threads + Sync, N: Naming + Send + Sync>(
    rt: &R,
    alloc: Global,
    players: Players<'a, N>,
    crew: Crew,
) -> Players<'a, N> {
    let ran = run_all(rt, players.jobs(rt, alloc, crew));
    let players = gather(rt, alloc, ran);
    let below = crew.values as usize;
    let tally = &players.writer.tally;
    assert!(rt; tally.were_dropped_once(below) && tally.were_buried_once(below));
    players
}
