//! A publisher whose versions are a list, and which keeps the result of each update.
ghost use Rattle.std.specs.Prelude.{◌≡◌, ◌+◌, ◌≤◌, ◌<◌, ◌-◌, ◌++◌, [], ◌∷◌, vec_len, vec_capacity, length, take, drop};
ghost use Rattle.update_batches.specs.Batch.{versions_in};
ghost use Rattle.update_batches.specs.Results.{first_verdict, replies_to};

use dns_engine::SharedVersion;
use std::alloc::{AllocError, Global};
use std::mem;
use std::sync::Wait;
use update_batches::{QueuedUpdate, ReplyList, UpdatePublisher, Verdict, VersionUpdate};

/// How many versions it has room for after the first.
const ROOM: usize = 16;

/// The result of an update: the number of its batch, its ID, its response code (RFC 2136, 2.2), and the serials of the zone before and after it.
pub(crate) type Outcome = (usize, u8, u8, Option<(u32, u32)>);

/// The versions that are published, and the results of updates.
#[derive(Drop)]
pub(crate) struct VersionList {
    before: Vec<SharedVersion>,
    last: SharedVersion,
    begun: usize,
    room: usize,
    rooms: &'static [usize],
    batches: usize,
    results: Vec<Outcome>,
    replied: ReplyList,
    ghost held: { 16 ≤ vec_capacity before },
    ghost fits: { room ≤ 16 - vec_len before },
}

impl VersionList {
    /// A list with one version. At most so many versions of its first batches find room; after these, as many as the list has room for.
    pub fn new(
        alloc: Global,
        first: SharedVersion,
        rooms: &'static [usize],
    ) -> Result<VersionList, AllocError> {
        Ok(VersionList {
            before: Vec::with_capacity(alloc, ROOM)?,
            last: first,
            begun: 0,
            room: 0,
            rooms,
            batches: 0,
            results: Vec::with_capacity(alloc, ROOM)?,
            replied: ReplyList::new(),
        })
    }

    /// The number of versions that are published.
    pub fn published(&self) -> usize {
        self.before.len().saturating_add(1)
    }

    /// The serial of the last.
    pub fn serial(&self) -> u32 {
        self.last.get().serial().0
    }

    /// The results of updates, oldest first.
    pub fn results(&self) -> &[Outcome] {
        &self.results
    }

    /// Publishes one more version.
    fn put(&mut self, version: SharedVersion)
        requires { 0 < self.old.room }
        ensures published { self.new.before.items ++ self.new.last ∷ [] ≡ (self.old.before.items ++ self.old.last ∷ []) ++ version ∷ [] }
        ensures begun { self.new.begun ≡ self.old.begun }
        ensures room { self.new.room + 1 ≡ self.old.room }
        ensures replied { self.new.replied.replies ≡ self.old.replied.replies }
    {
        self.room -= 1;
        let before = mem::replace(&mut self.last, version);
        self.before.push_reserved(before);
    }

    /// Publishes the versions of updates in order.
    fn put_all(&mut self, updates: Vec<VersionUpdate>)
        requires { length updates.items ≤ self.old.room }
        ensures published { self.new.before.items ++ self.new.last ∷ [] ≡ (self.old.before.items ++ self.old.last ∷ []) ++ versions_in updates.items }
        ensures begun { self.new.begun ≡ self.old.begun }
        ensures room { self.new.room + length updates.items ≡ self.old.room }
        ensures replied { self.new.replied.replies ≡ self.old.replied.replies }
    {
        for update in updates {
            self.put(update.into_version());
        }
    }
}

/// The first of these verdicts, SERVFAIL if there is none, and those after it.
fn first_verdict(verdicts: &[Verdict]) -> (Verdict, &[Verdict])
    ensures { (result.0 ≡ first_verdict verdicts.now) × (result.1.now ≡ drop 1 verdicts.now) }
{
    match verdicts.split_first() {
        Some((first, rest)) => (*first, rest),
        None => (Verdict::failed(), verdicts),
    }
}

/// The result of an update of a batch, from its octets and its verdict.
fn outcome_of(batch: usize, octets: &[u8], verdict: Verdict) -> Outcome {
    let serials = match verdict.serials {
        Some(serials) => Some((serials.before.0, serials.after.0)),
        None => None,
    };
    let id = octets.get(1).copied().unwrap_or(0);
    (batch, id, verdict.code.number(), serials)
}

/// Notes the reply to each of the first `count` of these updates, and keeps its result as far as there is room. They are removed from `requests`.
fn note_all(
    replied: &mut ReplyList,
    batch: usize,
    requests: &mut Vec<QueuedUpdate>,
    count: usize,
    verdicts: &[Verdict],
    results: &mut Vec<Outcome>,
)
    requires some { count ≤ length requests.old.items }
    ensures replied { replied.new.replies ≡ replied.old.replies ++ replies_to verdicts.now (take count requests.old.items) }
    ensures rest { requests.new.items ≡ drop count requests.old.items }
    ensures requests_room { vec_capacity requests.new ≡ vec_capacity requests.old }
{
    let mut left = verdicts;
    for update in requests.drain(..count) {
        let (verdict, rest) = first_verdict(left);
        let messages = update.request.messages();
        replied.note(&[u64::from(verdict.code.number())], messages);
        if results.len() < results.capacity() {
            results.push_reserved(outcome_of(batch, messages.first(), verdict));
        }
        left = rest;
    }
}

impl UpdatePublisher for VersionList {
    ghost use Rattle.std.specs.Prelude.{◌++◌, ◌∷◌, []};

    ghost published = { λ list. list.before.items ++ list.last ∷ [] };

    ghost begun = { λ list. list.begun };

    ghost room = { λ list. list.room };

    ghost replied = { λ list. list.replied.replies };

    fn begin_batch<R: Wait>(&mut self, rt: &R) -> (SharedVersion, usize) {
        self.begun = self.before.len() + 1;
        let most = self.rooms.get(self.batches).copied().unwrap_or(ROOM);
        self.room = ROOM.saturating_sub(self.before.len()).min(most);
        self.batches = self.batches.saturating_add(1);
        (self.last.share(rt), self.room)
    }

    fn finish<R: Wait>(
        &mut self,
        _rt: &R,
        requests: &mut Vec<QueuedUpdate>,
        count: usize,
        verdicts: &[Verdict],
        updates: Vec<VersionUpdate>,
    ) {
        self.put_all(updates);
        let VersionList {
            batches,
            results,
            replied,
            ..
        } = self;
        note_all(replied, *batches, requests, count, verdicts, results);
    }
}
