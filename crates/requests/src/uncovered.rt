//! Which record of an update no rule covers.
ghost use Rattle.std.specs.Prelude.{◌≡◌, option_map};
ghost use Rattle.std.specs.Option.{option_copied};
ghost use Rattle.dns_message.specs.Request.{Tells};
ghost use Rattle.dns_message.specs.declared.query.Parsed.{Parsed as ParsedRequest};
ghost use Rattle.requests.specs.Allowed.{owner_and_type, requestor_at, uncovered, uncovered_record};

use crate::allowed::Allowed;
use dns_message::{Parsed, parse};
use dns_name::Name;
use dns_rdata::{RType, RawRecord};
use rights::{Requestor, Rule, first_uncovered, has_right};
use serve_core::Transport;
use std::net::SocketAddr;

/// A record of an update that no rule of its sender covers.
#[derive(Drop)]
pub struct Uncovered {
    /// Its owner.
    pub owner: Name,
    /// Its type.
    pub rtype: RType,
}

impl Allowed<'_> {
    /// The first record of an update that no rule of its sender covers (own). None if no rule gives the sender a right to update, if each record is
    /// covered, or if the request can't be read as an update.
    pub fn uncovered(
        self,
        from: SocketAddr,
        transport: Transport,
        request: &[u8],
    ) -> Option<Uncovered>
        ensures { (reported : ParsedRequest) × Tells request.now reported × (option_map owner_and_type result ≡ uncovered self.entry.rules.now (requestor_at transport from) reported) }
    {
        let who = Requestor::new(from.ip(), transport.is_stream());
        let parsed = parse(self.alloc, request);
        uncovered_in(self.rules, who, &parsed)
    }
}

/// The owner and the type of the first record of an update that no rule covers, as [`uncovered_record`] finds it.
fn uncovered_in(rules: &[Rule], who: Requestor, parsed: &Parsed) -> Option<Uncovered>
    ensures { option_map owner_and_type result ≡ uncovered rules.now who parsed.now }
{
    match uncovered_record(rules, who, parsed) {
        None => None,
        Some(found) => Some(uncovered_of(found)),
    }
}

/// The owner and the type of a record.
fn uncovered_of(found: &RawRecord) -> Uncovered
    ensures { owner_and_type result ≡ (found.now.owner, found.now.rtype) }
{
    Uncovered {
        owner: found.owner.copy(),
        rtype: found.rtype,
    }
}

/// The first record of an update that no rule covers; None if no rule gives who asks a right to update, or of what is no update.
fn uncovered_record<'u>(rules: &[Rule], who: Requestor, parsed: &'u Parsed) -> Option<&'u RawRecord>
    ensures { option_copied result ≡ uncovered_record rules.now who parsed.now }
{
    let Parsed::Update(update) = parsed else {
        return None;
    };
    if !has_right(rules, who) {
        return None;
    }
    first_uncovered(rules, who, &update.zone.name, update.updates.as_slice())
}
