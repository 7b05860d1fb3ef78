//! Replies to requests other than updates, and the replies to updates (RFC 1034, 4.3.2; RFC 2136, 3.8).
ghost use Rattle.std.specs.Prelude.{◌≡◌, ◌==◌, ◌||◌, false, Some, IfOk, IfErr, if◌then◌else◌};
ghost use Rattle.dns_message.specs.Message.{opcode_UPDATE};
ghost use Rattle.dns_message.specs.declared.query.Parsed.TheVariants.{Query as Asks};
ghost use Rattle.serve_core.specs.declared.transport.Transport.TheVariants.{Udp};
ghost use Rattle.world_run.specs.World.{answering, ask_said, ask_start, asks_sent, code_reply};
ghost use Rattle.world_run.specs.declared.start.Start.TheVariants.{Refused, Answers};
ghost use Rattle.world_run.specs.declared.step.Answer.TheVariants.{Reply};

use crate::fault::WorldFault;
use crate::lent::Request;
use crate::step::{Answer, Octets};
use dns_message::{OPCODE_UPDATE, Parsed, Query, parse};
use dns_rdata::Rcode;
use serve_core::{Heading, Peer, Transport, UDP_LIMIT, is_permitted, respond_to, write_code};
use std::alloc::Global;
use zone_tree::Version;

/// The reply to a request over UDP in a version's zone; None of an update, and of a question for a transfer that may be
/// sent.
pub(crate) fn answer_in(
    alloc: Global,
    version: &Version,
    request: &Request<'_>,
) -> Result<Option<Answer>, WorldFault>
    ensures ok { IfOk result (λ answer. answering answer ≡ ask_start (Some version.now.zone) request.now) }
    ensures refused { IfErr result (λ fault. fault ≡ WorldFault.NoMemory) }
{
    let said = parse(alloc, request.as_slice());
    match &said {
        Parsed::Query(query) => answer_query(alloc, version, query),
        Parsed::Fault(head, code) => answer_fault(alloc, &Heading::header_alone(*head), *code),
        Parsed::BadOpt(head, question, code, dnssec_ok) => {
            answer_fault(alloc, &Heading::of_bad(*head, question, *dnssec_ok), *code)
        }
        Parsed::Silent => Ok(Some(Answer::Silent)),
        Parsed::Update(_) => Ok(None),
        Parsed::NoMemory(_) => Err(WorldFault::NoMemory),
    }
}

/// The reply to a request over UDP that can't be read, or whose OPT record is refused; None of an update.
fn answer_fault(alloc: Global, heading: &Heading, code: Rcode) -> Result<Option<Answer>, WorldFault>
    ensures ok { IfOk result (λ answer. answering answer ≡ (if heading.now.head.opcode == opcode_UPDATE || false then Refused else Answers (code_reply heading.now code))) }
    ensures refused { IfErr result (λ fault. fault ≡ WorldFault.NoMemory) }
{
    if heading.head.opcode == OPCODE_UPDATE {
        return Ok(None);
    }
    match reply_with(alloc, heading, code) {
        Ok(answer) => Ok(Some(answer)),
        Err(fault) => Err(fault),
    }
}

/// The reply to a query over UDP in a version's zone; None of a question for a transfer that may be sent.
fn answer_query(
    alloc: Global,
    version: &Version,
    query: &Query,
) -> Result<Option<Answer>, WorldFault>
    ensures ok { IfOk result (λ answer. answering answer ≡ ask_said version.now.zone (Asks query.now)) }
    ensures refused { IfErr result (λ fault. fault ≡ WorldFault.NoMemory) }
{
    if is_sent(version, query) {
        return Ok(None);
    }
    let mut out = [0; UDP_LIMIT];
    let len = respond_to(version.zone(), query, Transport::Udp, true, &mut out);
    match reply_of(alloc, &out[..len]) {
        Ok(reply) => Ok(Some(reply)),
        Err(fault) => Err(fault),
    }
}

/// Whether a query over UDP asks for a transfer that may be sent.
fn is_sent(version: &Version, query: &Query) -> bool
    ensures { result ≡ asks_sent Udp version.now.zone (Asks query.now) }
{
    is_permitted(version, query, Peer::over(Transport::Udp, true))
}

/// A reply over UDP that has a code and no record but an OPT.
pub(crate) fn reply_with(
    alloc: Global,
    heading: &Heading,
    code: Rcode,
) -> Result<Answer, WorldFault>
    ensures ok { IfOk result (λ answer. answer ≡ code_reply heading.now code) }
    ensures refused { IfErr result (λ fault. fault ≡ WorldFault.NoMemory) }
{
    let mut out = [0; UDP_LIMIT];
    let len = write_code(heading, code, Transport::Udp, &mut out);
    reply_of(alloc, &out[..len])
}

/// A reply of these octets.
fn reply_of(alloc: Global, octets: &[u8]) -> Result<Answer, WorldFault>
    ensures ok { IfOk result (λ answer. answer ≡ Reply octets.now) }
    ensures refused { IfErr result (λ fault. fault ≡ WorldFault.NoMemory) }
{
    match octets.to_vec(alloc) {
        Ok(octets) => Ok(Answer::Reply(Octets::new(octets))),
        Err(_) => Err(WorldFault::NoMemory),
    }
}
