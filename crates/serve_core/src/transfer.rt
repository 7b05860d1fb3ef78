//! What a question for a transfer gets (RFC 1995, 2 and 4; RFC 5936, 2.2).
ghost use Rattle.std.specs.Prelude.{◌≡◌, ◌≤◌, true, false, List, length, take, Some};
ghost use Rattle.dns_message.specs.Octets.{fit};
ghost use Rattle.dns_rdata.specs.Numbers.{class_IN};
ghost use Rattle.dns_rdata.specs.Record.{Record};
ghost use Rattle.zone_tree.specs.Zone.{soa_of};
ghost use Rattle.transfer_core.specs.Chain.{zones_of, LeadTo, told_changes};
ghost use Rattle.transfer_core.specs.Lists.{incremental};
ghost use Rattle.transfer_core.specs.Packed.{listed};
ghost use Rattle.transfer_core.specs.Places.{left_at};
ghost use Rattle.serve_core.specs.Reply.{asks_transfer};
ghost use Rattle.serve_core.specs.Transfers.{peer_over, is_unfit, is_permitted, reply_to_peer, is_current, list_for, messages_to};
ghost use Rattle.serve_core.specs.Transport.{limit_of, room_of};

use crate::heading::reply_opt;
use crate::peer::Peer;
use crate::reply::{asks_transfer, respond_to_query, write_refused, write_unanswered};
use crate::transport::Transport;
use dns_message::{Query, udp_limit};
use dns_rdata::{Class, RType, Rcode, Serial};
use transfer_core::{ChainView, Packer, Place, TransferRecords, records_at};
use wire_names::NameWriter;
use zone_tree::{Version, ZoneRead};

/// The messages of a transfer of a version's zone that a query asks for: of an IXFR from a serial that isn't less than the
/// version's the SOA alone, else what changed where the chain is whole; else the zone in whole; over UDP one message; the first
/// with an OPT where the query has one (RFC 1995, 2 and 4; RFC 5936, 2.2; RFC 6891, 6.1.1; own). The chain is of the versions after
/// the one of the IXFR's serial up to this one. It takes no memory.
pub fn transfer_reply<'a, C: ChainView>(
    version: &'a Version,
    chain: &'a C,
    query: &'a Query,
    peer: Peer,
) -> Packer<'a, C>
    requires permitted { is_permitted version.now.zone peer query.now ≡ true }
    ensures messages { result ≡ messages_to version.now.zone (told_changes (C.whole chain.now) (soa_of version.now.zone) (C.versions chain.now)) peer query.now }
    ensures changes { (zone : List Record) → C.whole chain.now ≡ true → LeadTo zone (C.versions chain.now) version.now.zone
        → result ≡ messages_to version.now.zone (Some (incremental zone (zones_of (C.versions chain.now)))) peer query.now }
{
    let list = list_for(version, chain, query);
    let opt = reply_opt(query.edns);
    if peer.transport.is_stream() {
        return Packer::new(query.head, &query.question, opt, list);
    }
    let limit = udp_limit(query.edns);
    let soa = version.zone().soa();
    Packer::datagram(query.head, &query.question, opt, limit, list, soa)
}

/// Whether a query is for a transfer that is sent: it asks for one of the zone, and the peer may have it (RFC 5936, 2.2.1).
pub fn is_permitted(version: &Version, query: &Query, peer: Peer) -> bool
    ensures { result ≡ is_permitted version.now.zone peer query.now }
{
    let question = &query.question;
    question.class == Class::IN
        && asks_transfer(question)
        && !is_unfit(peer, query)
        && question.name == *version.zone().apex()
        && peer.may_transfer
}

/// The list of a transfer (RFC 1995, 2 and 4; RFC 5936, 2.2).
pub fn list_for<'a, C: ChainView>(
    version: &'a Version,
    chain: &'a C,
    query: &Query,
) -> TransferRecords<'a, C>
    ensures { listed result ≡ list_for version.now.zone (told_changes (C.whole chain.now) (soa_of version.now.zone) (C.versions chain.now)) query.now }
{
    records_at(
        version.zone(),
        chain,
        &transfer_start(version, chain, query),
    )
}

/// Where the list of a transfer begins (RFC 1995, 2 and 4; RFC 5936, 2.2).
pub fn transfer_start<C: ChainView>(version: &Version, chain: &C, query: &Query) -> Place
    ensures { left_at version.now.zone (C.versions chain.now) result ≡ list_for version.now.zone (told_changes (C.whole chain.now) (soa_of version.now.zone) (C.versions chain.now)) query.now }
{
    if query.question.rtype == RType::AXFR {
        return Place::ZoneStart;
    }
    if is_current(version, query.serial) {
        return Place::LastSoa;
    }
    if chain.is_whole() {
        return Place::ChangesStart;
    }
    Place::ZoneStart
}

/// Whether a serial that is held isn't less than a version's (RFC 1995, 2; RFC 1982, 3.2).
fn is_current(version: &Version, held: Option<Serial>) -> bool
    ensures { result ≡ is_current version.now.zone held }
{
    match held {
        None => false,
        Some(serial) => !serial.less(version.serial()),
    }
}

/// Writes the reply to a query that isn't for a transfer that is sent, over a transport, from a peer that may do all or nothing
/// (RFC 1034, 4.3.2; RFC 1995, 2; RFC 5936, 2.2.1).
pub fn respond_to<Z: ZoneRead>(
    zone: &Z,
    query: &Query,
    transport: Transport,
    may: bool,
    out: &mut [u8],
) -> usize
    requires room { room_of transport ≤ length out.old }
    requires no_transfer { is_permitted (Z.records zone.now) (peer_over transport may) query.now ≡ false }
    ensures octets { take result out.new ≡ fit (reply_to_peer (Z.records zone.now) (peer_over transport may) query.now) (limit_of transport query.now.edns) }
    ensures len { result ≤ limit_of transport query.now.edns }
{
    respond_to_peer(zone, query, Peer::over(transport, may), out)
}

/// Writes the reply to a query that isn't for a transfer that is sent, in the order of the refusals (RFC 1034, 4.3.2;
/// RFC 1995, 2; RFC 5936, 2.2.1; own).
pub fn respond_to_peer<Z: ZoneRead>(zone: &Z, query: &Query, peer: Peer, out: &mut [u8]) -> usize
    requires room { room_of peer.transport ≤ length out.old }
    requires no_transfer { is_permitted (Z.records zone.now) peer query.now ≡ false }
    ensures octets { take result out.new ≡ fit (reply_to_peer (Z.records zone.now) peer query.now) (limit_of peer.transport query.now.edns) }
    ensures len { result ≤ limit_of peer.transport query.now.edns }
{
    let mut names = NameWriter::new();
    respond_by(&mut names, zone, query, peer, out)
}

/// Writes the reply to a query that isn't for a transfer that is sent, as [`respond_to_peer`] does, by a writer of names that the
/// caller keeps.
pub fn respond_by<Z: ZoneRead>(
    names: &mut NameWriter,
    zone: &Z,
    query: &Query,
    peer: Peer,
    out: &mut [u8],
) -> usize
    requires room { room_of peer.transport ≤ length out.old }
    requires no_transfer { is_permitted (Z.records zone.now) peer query.now ≡ false }
    ensures octets { take result out.new ≡ fit (reply_to_peer (Z.records zone.now) peer query.now) (limit_of peer.transport query.now.edns) }
    ensures len { result ≤ limit_of peer.transport query.now.edns }
{
    let question = &query.question;
    if question.class != Class::IN || !asks_transfer(question) {
        return respond_to_query(names, zone, query, peer.transport, out);
    }
    refuse_transfer(names, zone, query, peer, out)
}

/// `respond_to_peer` of a question for a transfer: which refusal it gets (RFC 1995, 2; RFC 5936, 2.2.1; own).
fn refuse_transfer<Z: ZoneRead>(
    names: &mut NameWriter,
    zone: &Z,
    query: &Query,
    peer: Peer,
    out: &mut [u8],
) -> usize
    requires room { room_of peer.transport ≤ length out.old }
    requires class { query.now.question.class.0 ≡ class_IN }
    requires transfer { asks_transfer query.now.question ≡ true }
    requires refused { is_permitted (Z.records zone.now) peer query.now ≡ false }
    ensures octets { take result out.new ≡ fit (reply_to_peer (Z.records zone.now) peer query.now) (limit_of peer.transport query.now.edns) }
    ensures len { result ≤ limit_of peer.transport query.now.edns }
{
    let transport = peer.transport;
    if is_unfit(peer, query) {
        return write_unanswered(names, query, Rcode::FormErr, transport, out);
    }
    if query.question.name != *zone.apex() {
        return write_refused(names, query, Rcode::NotAuth, transport, out);
    }
    write_refused(names, query, Rcode::Refused, transport, out)
}

/// Whether a question for a transfer is none: an AXFR over UDP, or an IXFR that doesn't tell what is held
/// (RFC 5936, 4.2; RFC 1995, 3).
fn is_unfit(peer: Peer, query: &Query) -> bool
    ensures { result ≡ is_unfit peer query.now }
{
    let rtype = query.question.rtype;
    (rtype == RType::AXFR && !peer.transport.is_stream())
        || (rtype == RType::IXFR && query.serial.is_none())
}
