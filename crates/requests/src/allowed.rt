//! Which requests update, and which peers may transfer.
ghost use Rattle.std.specs.Prelude.{◌≡◌, ◌&&◌, MatchResult};
ghost use Rattle.dns_message.specs.Request.{is_update as asks_update, reads, IsWant};
ghost use Rattle.dns_message.specs.declared.query.Parsed.TheVariants.{NoMemory as no_memory};
ghost use Rattle.requests.specs.Allowed.{permits, IsPeer};

use dns_message::{Head, Parsed, is_update, parse};
use rights::{Requestor, Rule, has_right, is_permitted, may_transfer};
use serve_core::{Peer, Transport};
use std::alloc::Global;
use std::net::SocketAddr;

/// The rules by which clients may update the zone and transfer it (RFC 2136, 3.3; RFC 5936, 5).
#[derive(Clone, Copy)]
pub struct Allowed<'a> {
    /// The rules.
    pub rules: &'a [Rule],
    /// The memory for reading an update.
    pub(crate) alloc: Global,
}

impl<'a> Allowed<'a> {
    /// These rules.
    pub fn new(alloc: Global, rules: &'a [Rule]) -> Allowed<'a>
        ensures { result.rules.now ≡ rules.entry.now }
    {
        Allowed { rules, alloc }
    }

    /// The peer that sends a request from an address, over a transport. It may update exactly if the request asks for an update that the rules
    /// permit, and transfer exactly if one gives it that right, from any port. An error is the header of an update that there is no memory to read.
    pub fn peer(self, from: SocketAddr, transport: Transport, request: &[u8]) -> Result<Peer, Head>
        ensures { MatchResult result (λ peer. IsPeer self.entry.rules.now transport from request.now peer) (λ head. IsWant request.now (no_memory head)) }
    {
        let who = Requestor::new(from.ip(), transport.is_stream());
        let may_update = match may_update(self.alloc, self.rules, who, request) {
            Ok(may) => may,
            Err(head) => return Err(head),
        };
        Ok(Peer {
            may_update,
            may_transfer: may_transfer(self.rules, who),
            transport,
        })
    }
}

/// Whether a request asks for an update that rules permit; of one that can't be read, whether they give its sender a right to update. An error is
/// the header of an update that there is no memory to read.
fn may_update(alloc: Global, rules: &[Rule], who: Requestor, request: &[u8]) -> Result<bool, Head>
    ensures { MatchResult result (λ may. may ≡ asks_update request.now && permits rules.now who (reads request.now)) (λ head. IsWant request.now (no_memory head)) }
{
    if !is_update(request) {
        return Ok(false);
    }
    match parse(alloc, request) {
        Parsed::Update(update) => Ok(is_permitted(rules, who, &update)),
        Parsed::NoMemory(head) => Err(head),
        Parsed::Silent => Ok(has_right(rules, who)),
        Parsed::Fault(_, _) => Ok(has_right(rules, who)),
        Parsed::BadOpt(_, _, _, _) => Ok(has_right(rules, who)),
        Parsed::Query(_) => Ok(has_right(rules, who)),
    }
}
