//! Applying a journal's updates again, one after another (RFC 2136, 3).
ghost use Rattle.std.specs.Prelude.{◌≡◌, ◌+◌, ◌<◌, ◌^◌, map, IfOk, IfErr, MatchResult};
ghost use Rattle.store_recovery.specs.Replay.{IsMade, IsUpdateFault, IsReplayed, IsReplayFault};

use crate::fault::{StartFault, UpdateFault};
use crate::recent_versions::RecentVersions;
use std::alloc::{AllocError, Global};
use update_core::{Outcome, apply};
use update_messages::read_request;
use zone_tree::{Version, Zone};

/// The version that a request of a peer that may update makes after another; or why it makes none (RFC 2136, 3). It allocates memory.
pub fn next_version(
    alloc: Global,
    version: &Version,
    messages: &[&[u8]],
) -> Result<Result<Version, UpdateFault>, AllocError>
    requires { version.now.number + 1 < 2 ^ 64 }
    ensures { IfOk result (λ made. MatchResult made
        (λ next. IsMade version.now (map (λ message. message.now) messages.now) next)
        (λ fault. IsUpdateFault version.now.zone (map (λ message. message.now) messages.now) fault)) }
{
    let Some(update) = read_request(alloc, messages)? else {
        return Ok(Err(UpdateFault::NotAnUpdate));
    };
    match apply(alloc, version, &update, true) {
        Outcome::Next(next) => Ok(Ok(next)),
        Outcome::Refused(code) => Ok(Err(UpdateFault::Refused(code))),
        Outcome::Unchanged => Ok(Err(UpdateFault::ChangesNothing)),
        Outcome::NoMemory => Err(AllocError),
    }
}

/// The newest versions that requests make of a zone, one after another (RFC 2136, 3).
pub(crate) fn replay_all(
    alloc: Global,
    zone: Zone,
    requests: &[Vec<&[u8]>],
) -> Result<RecentVersions, StartFault>
    ensures replayed { IfOk result (λ newest. IsReplayed zone (map (λ request. map (λ message. message.now) request.items) requests.now) newest) }
    ensures refused { IfErr result (λ fault. IsReplayFault zone (map (λ request. map (λ message. message.now) request.items) requests.now) fault) }
{
    let mut newest = RecentVersions::of(alloc, zone);
    for (place, request) in requests.iter().enumerate() {
        match next_version(alloc, &newest.last, request)? {
            Ok(next) => newest.push(next)?,
            Err(fault) => return Err(StartFault::Update(place as u64, fault)),
        }
    }
    Ok(newest)
}
