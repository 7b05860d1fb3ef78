//! Cases of batches of updates, and what becomes of them (RFC 2136, 3).
use crate::servers::{LAST_SERIAL, ZONE};
use crate::store::Store;
use crate::updates::{ADD_1, ADD_1_AGAIN, ADD_2, ADD_5, OUTSIDE, WITH_TTL, put};
use crate::version_list::{Outcome, VersionList};
use dns_engine::SharedVersion;
use dns_name::Name;
use journal::LogFault;
use master_file::read_zone;
use memory_devices::{DiskFault, asker};
use std::alloc::Global;
use std::sync::Wait;
use update_batches::{Ended, Most, Queue, QueuedUpdate, ReplyTo, UpdateThread};
use zone_tree::Version;

/// The limits of the queue.
const MOST: Most = Most {
    items: 8,
    octets: 8,
};

/// The result of a turn.
#[derive(Clone, Copy)]
pub(crate) enum TurnEnd {
    /// A batch is judged, and written if it changes the zone.
    Judged,
    /// A batch cannot be synced.
    NotSynced,
    /// A batch cannot be written, since one before it could not be synced.
    Stuck,
    /// The queue is ended before the turn, and nothing waits.
    Ended,
    /// The queue is ended before the turn and served to its end, and then nothing waits.
    Served,
}

/// The updates that are queued before a turn, and its result.
type Round = (&'static [&'static str], TurnEnd);

/// Rounds of an update thread, and what they leave.
pub(crate) struct Case {
    /// What it shows.
    pub name: &'static str,
    /// The text of its zone.
    zone: &'static str,
    /// The plan of the disk's calls; None if there is no store.
    plan: Option<&'static [u8]>,
    /// How many versions of each of its first batches find room.
    rooms: &'static [usize],
    /// Its rounds.
    rounds: &'static [Round],
    /// The result of each update.
    results: &'static [Outcome],
    /// The number of versions that are published, and the serial of the last.
    published: (usize, u32),
    /// The IDs of the updates that a start recovers.
    recovered: &'static [u8],
}

/// A batch of which two updates change the zone.
pub(crate) const LASTING: Case = Case {
    name: "a batch lasts: each update is judged after the effect of those before it",
    zone: ZONE,
    plan: Some(&[]),
    rooms: &[],
    rounds: &[(
        &[ADD_1, ADD_1_AGAIN, ADD_2, OUTSIDE, WITH_TTL],
        TurnEnd::Judged,
    )],
    results: &[
        (1, 1, 0, Some((7, 8))),
        (1, 4, 0, Some((8, 8))),
        (1, 2, 0, Some((8, 9))),
        (1, 3, 10, None),
        (1, 6, 1, None),
    ],
    published: (3, 9),
    recovered: &[1, 2],
};

/// All cases.
pub(crate) const CASES: &[Case] = &[
    LASTING,
    Case {
        name: "updates for which a batch has no room wait for the next, but one is judged even if there is none",
        zone: ZONE,
        plan: Some(&[]),
        rooms: &[2, 0, 0],
        rounds: &[
            (&[ADD_1, ADD_2, ADD_5, OUTSIDE], TurnEnd::Judged),
            (&[], TurnEnd::Judged),
            (&[], TurnEnd::Judged),
            (&[], TurnEnd::Ended),
        ],
        results: &[
            (1, 1, 0, Some((7, 8))),
            (1, 2, 0, Some((8, 9))),
            (2, 5, 2, None),
            (3, 3, 10, None),
        ],
        published: (3, 9),
        recovered: &[1, 2],
    },
    // The append works, and the sync fails; the appended octets are cut off.
    Case {
        name: "a batch fails, and so do later ones, since it was the sync that failed",
        zone: ZONE,
        plan: Some(&[1, 0]),
        rooms: &[],
        rounds: &[
            (&[ADD_1, ADD_1_AGAIN, OUTSIDE], TurnEnd::NotSynced),
            (&[ADD_2, WITH_TTL], TurnEnd::Stuck),
        ],
        results: &[
            (1, 1, 2, None),
            (1, 4, 2, None),
            (1, 3, 2, None),
            (2, 2, 2, None),
            (2, 6, 2, None),
        ],
        published: (1, 7),
        recovered: &[],
    },
    Case {
        name: "what is queued when the queue is ended is judged, also if it is stored nowhere",
        zone: ZONE,
        plan: None,
        rooms: &[2],
        rounds: &[(&[ADD_1, ADD_2, ADD_5], TurnEnd::Served)],
        results: &[
            (1, 1, 0, Some((7, 8))),
            (1, 2, 0, Some((8, 9))),
            (2, 5, 0, Some((9, 10))),
        ],
        published: (4, 10),
        recovered: &[],
    },
    Case {
        name: "after the last serial comes 0",
        zone: LAST_SERIAL,
        plan: None,
        rooms: &[],
        rounds: &[(&[ADD_1, ADD_2], TurnEnd::Judged)],
        results: &[(1, 1, 0, Some((4_294_967_295, 0))), (1, 2, 0, Some((0, 1)))],
        published: (3, 1),
        recovered: &[],
    },
];

/// Queues updates. None if memory allocation fails.
fn put_all<R: Wait>(
    rt: &R,
    alloc: Global,
    queue: &Queue<QueuedUpdate>,
    updates: &[&'static str],
) -> Option<()> {
    for update in updates {
        let reply_to = ReplyTo::Datagram {
            worker: 1,
            to: asker(4711),
            tsig: None,
        };
        put(rt, alloc, queue, update, reply_to)?;
    }
    Some(())
}

/// Whether a turn has this result.
fn turns<R: Wait>(
    rt: &R,
    thread: &mut UpdateThread<'_, VersionList, Store>,
    queue: &Queue<QueuedUpdate>,
    end: TurnEnd,
) -> bool {
    if matches!(end, TurnEnd::Ended | TurnEnd::Served) {
        queue.end(rt);
    }
    if matches!(end, TurnEnd::Served) {
        thread.serve(rt);
    }
    let turned = thread.turn(rt);
    match end {
        TurnEnd::Judged => matches!(turned, Ok(None)),
        TurnEnd::NotSynced => matches!(turned, Ok(Some(LogFault::Disk(DiskFault::Planned)))),
        TurnEnd::Stuck => matches!(turned, Ok(Some(LogFault::Stuck))),
        TurnEnd::Ended | TurnEnd::Served => matches!(turned, Err(Ended)),
    }
}

/// What rounds leave.
#[derive(Drop)]
pub(crate) struct Rest {
    /// Whether each turn had its result.
    turned: bool,
    /// The publisher.
    pub list: VersionList,
    /// The IDs of the updates that a start recovers.
    pub recovered: Vec<u8>,
}

/// The first version of the zone of a text. None if memory allocation fails.
fn first_version(alloc: Global, text: &str) -> Option<SharedVersion> {
    let zone = read_zone(alloc, text.as_bytes(), &Name::root()).ok()?;
    SharedVersion::new(alloc, Version::first(zone))
}

impl Case {
    /// Runs the rounds. None if there is no memory to begin them, or to look at what they leave.
    pub fn run<R: Wait>(&self, rt: &R, alloc: Global) -> Option<Rest> {
        let first = first_version(alloc, self.zone)?;
        let store = match self.plan {
            Some(plan) => Store::journal(alloc, first.share(rt), plan)?,
            None => Store::Nowhere,
        };
        let queue: Queue<QueuedUpdate> = Queue::new(alloc, MOST).ok()?;
        let list = VersionList::new(alloc, first, self.rooms).ok()?;
        let mut thread = UpdateThread::new(alloc, list, store, &queue).ok()?;
        let mut turned = true;
        for (updates, end) in self.rounds {
            put_all(rt, alloc, &queue, updates)?;
            turned = turns(rt, &mut thread, &queue, *end) && turned;
        }
        let (list, store) = thread.into_parts();
        let recovered = store.recovered(alloc)?;
        Some(Rest {
            turned,
            list,
            recovered,
        })
    }

    /// Whether this is what the rounds are to leave.
    pub fn leaves(&self, rest: &Rest) -> bool {
        let list = &rest.list;
        let is_published = (list.published(), list.serial()) == self.published;
        let is_stored = rest.recovered.as_slice() == self.recovered;
        rest.turned && list.results() == self.results && is_published && is_stored
    }
}
