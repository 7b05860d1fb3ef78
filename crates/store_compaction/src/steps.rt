//! The updates of published versions (RFC 2136, 3; own).
ghost use Rattle.std.specs.Prelude.{◌≡◌, ◌<◌, [], ◌∷◌, length, map, All, IfOk};
ghost use Rattle.journal.specs.Frame.{body_limit};
ghost use Rattle.journal.specs.Batch.{batch_of, request_octets};
ghost use Rattle.update_batches.specs.Batch.{versions_in, updates_of};

use crate::body::Body;
use dns_engine::SharedVersion;
use journal::{RequestMessages, put_request, write_request};
use std::alloc::{AllocError, Global};
use std::sync::Wait;
use update_batches::VersionUpdate;

/// Pairs each version with its update. Allocates memory.
pub fn steps_of<R: Wait>(
    rt: &R,
    alloc: Global,
    versions: &[SharedVersion],
    updates: &[RequestMessages],
) -> Result<Vec<VersionUpdate>, AllocError>
    requires short { All (λ messages. length (request_octets messages) < body_limit) updates.now }
    requires many { length versions.now ≡ length updates.now }
    ensures versions { IfOk result (λ steps. versions_in steps.items ≡ versions.now) }
    ensures updates { IfOk result (λ steps. updates_of steps.items ≡ updates.now) }
{
    let mut steps = Vec::with_capacity(alloc, versions.len())?;
    for (place, version) in versions.iter().enumerate() {
        let step = VersionUpdate::of(alloc, version.share(rt), &updates[place])?;
        steps.push(step)?;
    }
    Ok(steps)
}

/// Copies of updates with their versions. Allocates memory.
pub(crate) fn copies_of<R: Wait>(
    rt: &R,
    alloc: Global,
    updates: &[VersionUpdate],
) -> Result<Vec<VersionUpdate>, AllocError>
    ensures versions { IfOk result (λ copies. versions_in copies.items ≡ versions_in updates.now) }
    ensures updates { IfOk result (λ copies. updates_of copies.items ≡ updates_of updates.now) }
{
    let mut copies = Vec::with_capacity(alloc, updates.len())?;
    for update in updates {
        let copy = VersionUpdate::of(alloc, update.version().share(rt), update.messages())?;
        copies.push(copy)?;
    }
    Ok(copies)
}

/// The body of the batch of updates, which a frame takes. Allocates memory.
pub(crate) fn batch_body(alloc: Global, updates: &[VersionUpdate]) -> Result<Vec<u8>, AllocError>
    requires short { length (batch_of (updates_of updates.now)) < body_limit }
    ensures batch { IfOk result (λ body. body.items ≡ batch_of (updates_of updates.now)) }
    ensures short { IfOk result (λ body. length body.items < body_limit) }
{
    let mut body = Vec::new(alloc);
    for update in updates {
        put_request(alloc, &mut body, update.messages())?;
    }
    Ok(body)
}

/// The bodies of updates, each as a batch of its own. Allocates memory.
pub(crate) fn bodies_of(alloc: Global, updates: &[VersionUpdate]) -> Result<Vec<Body>, AllocError>
    ensures { IfOk result (λ bodies. map (λ body. body.octets.items) bodies.items ≡ map (λ messages. batch_of (messages ∷ [])) (updates_of updates.now)) }
{
    let mut bodies = Vec::with_capacity(alloc, updates.len())?;
    for update in updates {
        let octets = write_request(alloc, update.messages())?;
        bodies.push(Body { octets })?;
    }
    Ok(bodies)
}
