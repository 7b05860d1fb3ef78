//! What a request gets in a version of the zone: a reply, and from an update the next version (RFC 1034, 4.3.2; RFC 2136, 3).
ghost use Rattle.std.specs.Prelude.{◌≡◌, ◌≤◌, ◌+◌, ◌<◌, ◌^◌, length, Some, None, IfSome};
ghost use Rattle.dns_message.specs.declared.query.Parsed.TheVariants.{Update as SaysUpdate};
ghost use Rattle.dns_message.specs.Octets.{fit};
ghost use Rattle.zone_tree.specs.Version.{KnowsChanges};
ghost use Rattle.update_core.specs.Applied.{code_told, next_of};
ghost use Rattle.serve_core.specs.Heading.{coded};
ghost use Rattle.serve_core.specs.Served.{ServesSaid, IsToldAtOnce, StandsIn};
ghost use Rattle.serve_core.specs.Replies.{IsNoTransfer};
ghost use Rattle.serve_core.specs.Transfers.{peer_over};
ghost use Rattle.serve_core.specs.Transport.{limit_of, room_of};

use crate::heading::{Heading, write_code};
use crate::transfer::respond_to;
use crate::transport::Transport;
use dns_message::{Parsed, Update};
use dns_rdata::Rcode;
use std::alloc::Global;
use update_core::{Outcome, apply};
use zone_tree::Version;

/// What a request gets.
#[derive(Drop)]
pub struct Responded {
    /// How many octets the reply has; None where there is no reply.
    pub len: Option<usize>,
    /// The next version, where the request is an update that changes the zone.
    pub next: Option<Version>,
}

/// Serves what a request says in a version of the zone, from a peer that may update it or may not: writes the reply over a
/// transport to the front of `out`, and gives the next version where the request makes one. A transfer that is sent isn't served
/// here. Only an update takes memory; where that is wanted it gets SERVFAIL, and changes nothing (RFC 1034, 4.3.2; RFC 1035, 4.1
/// and 4.2; RFC 2136, 3). The next version knows what it changed (RFC 1995, 4).
pub fn respond(
    alloc: Global,
    version: &Version,
    transport: Transport,
    may: bool,
    said: &Parsed,
    out: &mut [u8],
) -> Responded
    requires room { room_of transport ≤ length out.old }
    requires counted { version.now.number + 1 < 2 ^ 64 }
    requires no_transfer { IsNoTransfer version.now.zone (peer_over transport may) said.now }
    ensures served { ServesSaid result transport may version.now said.now out.new }
    ensures at_once { IsToldAtOnce version.now.zone may transport said.now result.len out.new }
    ensures changes { IfSome result.next (λ next. KnowsChanges version.now.zone next) }
{
    match said {
        Parsed::Silent => Responded {
            len: None,
            next: None,
        },
        Parsed::Fault(head, code) => {
            let heading = Heading::header_alone(*head);
            unchanged(write_code(&heading, *code, transport, out))
        }
        Parsed::BadOpt(head, question, code, dnssec_ok) => {
            let heading = Heading::of_bad(*head, question, *dnssec_ok);
            unchanged(write_code(&heading, *code, transport, out))
        }
        Parsed::Query(query) => {
            unchanged(respond_to(version.zone(), query, transport, may, out))
        }
        Parsed::Update(update) => respond_to_update(alloc, version, update, transport, may, out),
        Parsed::NoMemory(head) => {
            let heading = Heading::header_alone(*head);
            unchanged(write_code(&heading, Rcode::ServFail, transport, out))
        }
    }
}

/// Serves an update: its code, and the version that it makes (RFC 2136, 3; which code tells of a limit or of want of
/// memory is our own choice).
fn respond_to_update(
    alloc: Global,
    version: &Version,
    update: &Update,
    transport: Transport,
    may: bool,
    out: &mut [u8],
) -> Responded
    requires room { room_of transport ≤ length out.old }
    requires counted { version.now.number + 1 < 2 ^ 64 }
    ensures served { ServesSaid result transport may version.now (SaysUpdate update.now) out.new }
    ensures at_once { IsToldAtOnce version.now.zone may transport (SaysUpdate update.now) result.len out.new }
    ensures changes { IfSome result.next (λ next. KnowsChanges version.now.zone next) }
{
    let outcome = apply(alloc, version, update, may);
    reply_of(outcome, &Heading::of_update(update), transport, out)
}

/// The reply to an update by what becomes of it, and the version that it makes (RFC 2136, 3; own).
fn reply_of(outcome: Outcome, heading: &Heading, transport: Transport, out: &mut [u8]) -> Responded
    requires { room_of transport ≤ length out.old }
    ensures reply { StandsIn result.len (limit_of transport None) out.new (Some (fit (coded heading.now (code_told outcome)) (limit_of transport None))) }
    ensures next { result.next ≡ next_of outcome }
{
    let len = write_code(heading, outcome.code(), transport, out);
    Responded {
        len: Some(len),
        next: outcome.next(),
    }
}

/// A reply of so many octets, after which the version stays.
fn unchanged(len: usize) -> Responded
    ensures len { result.len ≡ Some len }
    ensures next { result.next ≡ None }
{
    Responded {
        len: Some(len),
        next: None,
    }
}
