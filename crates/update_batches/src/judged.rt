//! Updates judged one after another, in versions that nobody sees yet (RFC 2136, 3; own).
ghost use Rattle.std.specs.Prelude.{◌≡◌, ◌≤◌, ◌<◌, ◌↔◌, List, [], ◌∷◌, ◌++◌, IsTrue, length, vec_capacity, MatchBool};
ghost use Rattle.journal.specs.Batch.{batch_of};
ghost use Rattle.journal.specs.Frame.{body_limit};
ghost use Rattle.update_batches.specs.Batch.{newest_of, versions_in, updates_of, IsBatch};
ghost use Rattle.update_batches.specs.declared.queued_update.QueuedUpdate.{QueuedUpdate as Queued};
ghost use Rattle.update_batches.specs.declared.verdict.Verdict.{Verdict as VerdictOf};
ghost use Rattle.update_batches.specs.declared.version_update.VersionUpdate.{VersionUpdate as Made};

use crate::queued_update::QueuedUpdate;
use crate::verdict::Verdict;
use crate::version_update::VersionUpdate;
use dns_engine::{Judged, SharedVersion, judge};
use journal::{BODY_LIMIT, RequestMessages};
use std::alloc::Global;

/// How many updates of a batch make a version at most.
pub const MOST: usize = 64;

/// Judges updates in a version, each in the version that those before it make, of which at most `room` make one, and a frame takes the batch of these. Gives the updates that make a version, and puts the verdict of
/// each update into `verdicts`, in place of what was there. Allocates memory for what they make; an update for which there is none gets SERVFAIL.
pub fn judge_batch(
    alloc: Global,
    last: &SharedVersion,
    requests: &[QueuedUpdate],
    room: usize,
    verdicts: &mut Vec<Verdict>,
) -> Vec<VersionUpdate>
    requires verdicts_room { length requests.now ≤ vec_capacity verdicts.old }
    ensures judged { IsBatch last.now requests.now verdicts.new.items result.items room }
    ensures verdicts_room { vec_capacity verdicts.new ≡ vec_capacity verdicts.old }
{
    verdicts.clear();
    let mut updates = Vec::new(alloc);
    for one in requests {
        let verdict = judge_one(alloc, last, one, room, &mut updates);
        verdicts.push_reserved(verdict);
    }
    updates
}

/// Judges one more update, after others that were judged from a first version on.
fn judge_one(
    alloc: Global,
    first: &SharedVersion,
    one: &QueuedUpdate,
    room: usize,
    updates: &mut Vec<VersionUpdate>,
) -> Verdict
    requires { length (batch_of (updates_of updates.old.items)) < body_limit }
    ensures { (requests : List Queued) (verdicts : List VerdictOf) → IsBatch first.now requests verdicts updates.old.items room
        → IsBatch first.now (requests ++ one.now ∷ []) (verdicts ++ result ∷ []) updates.new.items room }
{
    let newest = newest_of(first, updates);
    let before = newest.get().serial();
    match judge(alloc, newest, one.request.update(), one.request.may()) {
        Judged::Code(code) => Verdict::with_code(code, before),
        Judged::Starved => Verdict::failed(),
        Judged::Made(next) => {
            let made = Verdict::made(before, next.get().serial());
            if put(alloc, updates, next, one.request.messages(), room) {
                made
            } else {
                Verdict::failed()
            }
        }
    }
}

/// The newest of the versions that updates make, or the first one if there are none.
fn newest_of<'a>(first: &'a SharedVersion, updates: &'a [VersionUpdate]) -> &'a SharedVersion
    ensures { result.now ≡ newest_of first.now (versions_in updates.now) }
{
    match updates.last() {
        Some(update) => update.version(),
        None => first,
    }
}

/// How many octets the batch of these updates has.
fn batch_len(updates: &[VersionUpdate]) -> usize
    requires { length (batch_of (updates_of updates.now)) < body_limit }
    ensures { result ≡ length (batch_of (updates_of updates.now)) }
{
    let mut len = 0usize;
    for update in updates {
        len = len.saturating_add(update.messages().batch_len());
    }
    len
}

/// Whether a frame takes the batch of these updates and of one more, with these messages.
fn is_taken(updates: &[VersionUpdate], messages: &RequestMessages) -> bool
    requires { length (batch_of (updates_of updates.now)) < body_limit }
    ensures { IsTrue result ↔ (length (batch_of (updates_of updates.now ++ messages.now ∷ [])) < body_limit) }
{
    batch_len(updates).saturating_add(messages.batch_len()) < BODY_LIMIT
}

/// Adds a version, with the messages of its update. Gives whether there were fewer than `room`, a frame takes the longer batch, and there was memory for both; otherwise
/// nothing is added.
fn put(
    alloc: Global,
    updates: &mut Vec<VersionUpdate>,
    next: SharedVersion,
    messages: &RequestMessages,
    room: usize,
) -> bool
    requires { length (batch_of (updates_of updates.old.items)) < body_limit }
    ensures put { MatchBool result
        ((update : Made) × (updates.new.items ≡ updates.old.items ++ update ∷ []) × (update.version ≡ next) × (update.messages ≡ messages.now) × (length updates.old.items < room))
        (updates.new.items ≡ updates.old.items) }
    ensures short { length (batch_of (updates_of updates.new.items)) < body_limit }
{
    if updates.len() >= room || !is_taken(updates, messages) {
        return false;
    }
    let Ok(update) = VersionUpdate::of(alloc, next, messages) else {
        return false;
    };
    if updates.push(update).is_err() {
        return false;
    }
    true
}
