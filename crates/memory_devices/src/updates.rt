//! Updates as the queue takes them.
ghost use Rattle.std.specs.Prelude.{◌≡◌, true, IfSome};

use dns_message::{Parsed, parse};
use std::alloc::Global;
use update_batches::UpdateRequest;

/// The update that octets hold, of a peer that may update. None if they hold none, or memory allocation fails.
pub fn request_of(alloc: Global, octets: Vec<u8>) -> Option<UpdateRequest>
    ensures { IfSome result (λ request. request.may ≡ true) }
{
    match parse(alloc, &octets) {
        Parsed::Update(update) => UpdateRequest::of(alloc, update, octets, true),
        _ => None,
    }
}
