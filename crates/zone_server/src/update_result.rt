//! Results of updates that wait for their replies (RFC 2136, 3.8).
ghost use Rattle.std.specs.Prelude.{◌≡◌};
ghost use Rattle.zone_server.specs.UpdateResult.{queued_result};

use dns_rdata::Rcode;
use update_batches::{QueuedUpdate, ReplyTo, Serials, UpdateRequest, Verdict};

/// The result of an update that waited.
pub struct UpdateResult {
    /// The update, with its bytes.
    pub asked: UpdateRequest,
    /// The version in which it was judged has this number or a greater one.
    pub least: u64,
    /// Its code (RFC 2136, 2.2).
    pub code: Rcode,
    /// Its own serials: those of the version in which it was judged and of the one that it made, equal if it changed nothing. None if its code is not NOERROR.
    pub serials: Option<Serials>,
}

impl Drop for UpdateResult {
    fn drop(self) {
        let UpdateResult {
            asked: _,
            least: _,
            code: _,
            serials: _,
        } = self;
    }
}

/// What a ticket gives when it is polled.
#[derive(Drop)]
pub enum Poll {
    /// No reply is pending at it.
    Unknown,
    /// The result is not there yet.
    Pending,
    /// The result. The ticket is now free.
    Ready(UpdateResult),
}

/// The result of a queued update, with the destination of its reply.
#[derive(Drop)]
pub struct QueuedResult {
    /// The result.
    pub done: UpdateResult,
    /// The destination of its reply.
    pub reply_to: ReplyTo,
}

impl QueuedResult {
    /// The result of a queued update with this verdict, judged in a version whose number is at least this one.
    pub(crate) fn of(update: QueuedUpdate, verdict: Verdict, least: u64) -> QueuedResult
        ensures { result ≡ queued_result least update verdict }
    {
        let QueuedUpdate { request, reply_to } = update;
        let done = UpdateResult {
            asked: request,
            least,
            code: verdict.code,
            serials: verdict.serials,
        };
        QueuedResult { done, reply_to }
    }
}
